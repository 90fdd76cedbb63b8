// The groups of loads of files written out, and of some of these into memory of other lengths.
use crate::loading;
use images::memory::Image;
use images::outputs;
use plans::lengths::Pair;
use plans::planned::Due;
use plans::written;
use plans::written::Group;
use reports::tallies::Tally;
use reports::{Report, tallies};
use samples::shapes::Shape;
use std::io;
use std::io::Stdout;

// Makes the loads of each group, and prints a line for each; the hub's index alone has them.
pub fn run(out: Stdout, image: &Image) -> io::Result<()> {
    for group in Group::ALL {
        let mut report = Report::new(out);
        for i in 0..written::FILES {
            let mut file = outputs::fresh();
            if let Some((n, due)) = group.write(&mut file, i) {
                loading::tried(&mut report, image, &file, n, due)?;
            }
        }
        report.print_written_loads(group.name())?;
    }
    Ok(())
}

// Loads the first file of each group into memory of each pair of lengths, and prints their line.
pub fn run_lent(out: Stdout, image: &Image) -> io::Result<()> {
    let mut report = Report::<Tally>::new(out);
    for pair in Pair::ALL {
        let mut copy = *image;
        pair.lend(&mut copy);
        if !copy.is_page() {
            for group in Group::ALL {
                report.tally.changes.add_if(copy != *image);
                load_first(&mut report, &copy, group)?;
            }
        }
    }
    report.print_file_loads(tallies::Group {
        page: image.is_page(),
        shape: Shape::Roster,
        name: "other lengths",
    })
}

fn load_first(report: &mut Report<Tally>, image: &Image, group: Group) -> io::Result<()> {
    let mut file = outputs::fresh();
    match group.write(&mut file, 0) {
        Some((n, _)) => loading::tried(report, image, &file, n, Due::Judged),
        None => Ok(()),
    }
}
