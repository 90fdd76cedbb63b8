// The group of charges at the edges on memory that is refused.
use crate::damage;
use comparisons::Request;
use images::memory::Image;
use plans::edges;
use plans::edges::Memory;
use plans::planned::Planned;
use reports::Report;
use reports::tallies::{Group, Tally};
use samples::shapes::Shape;
use std::io;
use std::io::Stdout;

// Makes the calls on a table that holds a roster but for its first label; the hub's index alone has them.
pub fn run(out: Stdout, image: &Image) -> io::Result<()> {
    let mut report = Report::<Tally>::new(out);
    for memory in Memory::REFUSED {
        let mut copy = *image;
        memory.make(&mut copy);
        for i in 0..edges::CALLS {
            report.tally.changes.add_if(copy != *image);
            call(&mut report, &copy, memory.call(i))?;
        }
    }
    report.print_lent(Group {
        page: false,
        shape: Shape::Roster,
        name: "charges refused",
    })
}

fn call(report: &mut Report<Tally>, image: &Image, planned: Planned) -> io::Result<()> {
    let label = planned.shape.label(image.sizes.width, planned.label);
    let request = Request {
        call: planned.call,
        label: label.as_slice(),
        number: planned.charge.unwrap_or(0),
    };
    damage::tried(report, image, request, planned.due)
}
