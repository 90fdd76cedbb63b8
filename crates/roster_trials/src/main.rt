// The executed tests of taking a roster: the call beside the text read apart, the plain ordered map, and the public
// inserts of the same records, over texts written out by hand, cut short, changed, drawn and of many names, on sound
// tables, damaged memory and memory of other lengths. One line is printed for each group, and one for each call that
// does not agree: the expected output has none.
#![tactic(auto)]

mod calls;
mod damage;
mod groups;
mod starts;
mod takings;
mod tallies;

use images::memory::Image;
use images::sizes::Sizes;
use plainmap::PlainMap;
use sheets::drawn;
use sheets::written::Group;
use std::io;

fn main(rt: HostRuntime) -> io::Result<()> {
    let out = rt.stdout();
    let mut image = Image::fresh(Sizes::HUB);
    let mut map = PlainMap::new(512, 64);
    for group in Group::SOUND {
        groups::run_written(out, &mut image, &mut map, group, 0)?;
    }
    groups::run_written(out, &mut image, &mut map, Group::AnyByte, 255)?;
    groups::run_cut(out, &mut image, &mut map)?;
    groups::run_changed(out, &mut image, &mut map)?;
    groups::run_names(out, &mut image, &mut map)?;
    groups::run_drawn(out, &mut image, &mut map, "drawn", drawn::write)?;
    groups::run_drawn(
        out,
        &mut image,
        &mut map,
        "drawn, one byte changed",
        drawn::write_changed,
    )?;
    damage::run(out, &mut image, &mut map)?;
    damage::run_lent(out, &mut image, &mut map)
}
