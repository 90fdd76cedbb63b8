// The search of an update: once, with the way it went kept. Nothing is changed.
ghost use Rattle.std.specs.Prelude.{◌≡◌};
ghost use Rattle.words.specs.Limits.{SizesFit};
ghost use Rattle.traces.specs.Traces.{ended_at, found_at, longer, trace_on, traced};
ghost use Rattle.traces.specs.Traces.{CanTrace, CanEnd, CanLengthen, TraceFits};

use crate::Trace;
use nodes::{Spot, Step};
use types::Limits;

// The trace of a search that ends without the label.
fn ended(spot: Spot) -> Trace
    ensures { result ≡ ended_at spot }
{
    Trace {
        found: 0,
        p: spot.p,
        s: spot.s,
        below: spot.below,
        above: spot.above,
        path: 0,
        length: 0,
        visits: spot.visits,
        places: spot.places,
    }
}

// The trace of a search that ends with the label.
fn found(spot: Spot, examined: usize) -> Trace
    requires { CanEnd spot examined }
    ensures { result ≡ found_at spot examined }
{
    Trace {
        found: spot.link as u16,
        visits: spot.visits + 1,
        places: spot.places + examined,
        ..ended(spot)
    }
}

// The trace of a search that took one side more before it: 1 for right.
fn longer(bit: usize, trace: Trace) -> Trace
    requires { CanLengthen bit trace }
    ensures { result ≡ longer bit trace }
{
    Trace {
        path: bit + 2 * trace.path,
        length: trace.length + 1,
        ..trace
    }
}

// The trace from a spot on.
fn trace_from(limits: Limits, table: &[u16], store: &[u8], label: &[u8], spot: Spot) -> Trace
    requires { CanTrace limits table.now store.now spot }
    ensures { result ≡ trace_on limits table.now store.now label.now spot }
{
    if nodes::halts(limits, table, spot.link, limits.depth - spot.visits) {
        return ended(spot);
    }
    let row = words::read_row(table, spot.link);
    match nodes::visit(limits, store, label, spot, row) {
        Step::Found { examined } => found(spot, examined),
        Step::Onward(step) => {
            let next = nodes::after(spot, row, step);
            let deeper = trace_from(limits, table, store, label, next);
            longer(usize::from(step.right), deeper)
        }
    }
}

// The trace of the search for a label. On a table that is not sound it may end at a broken walk, as if the label were
// absent.
pub fn trace(limits: Limits, table: &[u16], store: &[u8], label: &[u8]) -> Trace
    requires { SizesFit limits table.now store.now }
    ensures value { result ≡ traced limits table.now store.now label.now }
    ensures trace_fits { TraceFits limits table.now result }
{
    let start = Spot {
        link: table[0] as usize,
        p: 1,
        s: 1,
        below: 0,
        above: 0,
        visits: 0,
        places: 0,
    };
    trace_from(limits, table, store, label, start)
}
