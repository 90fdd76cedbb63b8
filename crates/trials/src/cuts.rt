// The groups of loads of small files, cut short at each byte, or with one byte changed.
use crate::loading;
use images::memory::Image;
use images::outputs;
use images::outputs::Output;
use plainmap::{PlainMap, files};
use plans::bytes;
use plans::bytes::Way;
use plans::planned::Due;
use reports::Report;
use reports::tallies::{Group, Tally};
use samples::numbers;
use samples::shapes::Shape;
use std::io;
use std::io::Stdout;

// Makes the loads for each shape, and prints two lines for each; the hub's index alone has them.
pub fn run(out: Stdout, image: &Image) -> io::Result<()> {
    for shape in bytes::SHAPES {
        run_shape(out, image, shape)?;
    }
    Ok(())
}

fn run_shape(out: Stdout, image: &Image, shape: Shape) -> io::Result<()> {
    let mut file = outputs::fresh();
    let n = write(&mut file, shape);
    let mut cut = Report::new(out);
    cut_short(&mut cut, image, &file, n)?;
    cut.print_file_loads(group(shape, "cut short"))?;
    let mut changed = Report::new(out);
    change_each(&mut changed, image, &file, n)?;
    changed.print_file_loads(group(shape, "one byte"))
}

fn group(shape: Shape, name: &str) -> Group<'_> {
    Group {
        page: false,
        shape,
        name,
    }
}

// Writes the file of the first labels of a shape; its length.
fn write(file: &mut Output, shape: Shape) -> usize {
    let mut map = PlainMap::new(512, 64);
    for k in 0..bytes::LABELS {
        // The shape's number is part of what is drawn: the inputs may not change.
        let value = numbers::value(shape as usize, k);
        // A label that the map refuses is not in the file.
        let _ = map.insert(shape.label(64, k).as_slice(), value);
    }
    files::write(file, &map)
}

// Loads the file at each length up to its own, and one more.
fn cut_short(report: &mut Report<Tally>, image: &Image, file: &Output, n: usize) -> io::Result<()> {
    for end in 0..n.wrapping_add(2) {
        report.tally.changes.add_if(end != n);
        loading::tried(report, image, file, end, Due::Judged)?;
    }
    Ok(())
}

// Loads the file with each byte changed in each way, where it is another then.
fn change_each(
    report: &mut Report<Tally>,
    image: &Image,
    file: &Output,
    n: usize,
) -> io::Result<()> {
    for (at, &found) in file.iter().enumerate().take(n) {
        for way in Way::ALL {
            let byte = way.changed(found, at);
            if byte != found {
                let mut copy = *file;
                copy[at] = byte;
                report.tally.changes.add(1);
                loading::tried(report, image, &copy, n, Due::Judged)?;
            }
        }
    }
    Ok(())
}
