// The executed tests: the index beside a plain ordered map and a second writing of the paper, over whole rosters, calls
// from a fixed generator, files saved and loaded, damaged memory and memory of other lengths. One line is printed for
// each group, and one for each call that does not agree: the expected output has none.
#![tactic(auto)]

mod cuts;
mod damage;
mod edges;
mod file_edges;
mod lent;
mod loading;
mod probes;
mod saving;
mod sequences;
mod written_files;

use images::memory::Image;
use images::sizes::Sizes;
use plainmap::PlainMap;
use plans::groups;
use plans::groups::{Plan, Way};
use std::io;
use std::io::Stdout;

fn main(rt: HostRuntime) -> io::Result<()> {
    let out = rt.stdout();
    run_index(out, Sizes::HUB)?;
    run_index(out, Sizes::PAGE)
}

// All groups on the index of these sizes.
fn run_index(out: Stdout, sizes: Sizes) -> io::Result<()> {
    let mut image = Image::fresh(sizes);
    let mut map = PlainMap::new(sizes.slots, sizes.width);
    for plan in groups::plans(sizes.slots) {
        run_plan(out, &mut image, &mut map, plan)?;
    }
    lent::run(out, &image)?;
    if sizes == Sizes::HUB {
        edges::run(out, &image)?;
    }
    saving::run_lent(out, &image)?;
    written_files::run_lent(out, &image)?;
    if sizes == Sizes::HUB {
        file_edges::run(out, &mut image, &mut map)?;
        cuts::run(out, &image)?;
        written_files::run(out, &image)?;
    }
    Ok(())
}

// A group, and the damaged memories of a table that it prepared; nothing where the index does not have its calls.
fn run_plan(out: Stdout, image: &mut Image, map: &mut PlainMap, plan: Plan) -> io::Result<()> {
    if plan.is_hubs() && image.is_page() {
        return Ok(());
    }
    sequences::run(out, image, map, plan)?;
    if plan.way == Way::Prepared {
        damage::run(out, image, plan.shape)?;
    }
    Ok(())
}
