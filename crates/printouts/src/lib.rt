// The lines that `roster` prints, put behind a text.
#![tactic(auto)]

ghost use Rattle.std.specs.Prelude.{◌++◌, ◌+◌, ◌≤◌, length};
ghost use Rattle.types.specs.Sizes.{hub};
ghost use Rattle.types.specs.Answers.{refusal_number};
ghost use Rattle.types.specs.RosterReplies.{roster_says, refused};
ghost use Rattle.texts.specs.Texts.{then_number, line_end};
ghost use Rattle.texts.specs.Puts.{Puts};
ghost use Rattle.printouts.specs.Printouts.{answer_line, then_label, line_with};
ghost use Rattle.printouts.specs.Rooms.{answer_room, label_room, line_room};

use texts::Text;
use types::RefusedRecord;

// Puts the answer's line.
#[tactic(auto, unfolding(crate::specs::Printouts::answer_line))]
pub fn put_answer<const N: usize>(answer: Result<usize, RefusedRecord>, out: &mut Text<N>)
    requires { length out.old + answer_room ≤ N }
    ensures { Puts out.old (answer_line (roster_says answer)) answer_room out.new }
{
    match answer {
        Ok(count) => {
            out.put(b"ok");
            put_last(out, count);
        }
        Err(at) => put_refusal(at, out),
    }
}

// Puts the line for a refusal at a record.
#[tactic(auto, unfolding(crate::specs::Printouts::answer_line))]
fn put_refusal<const N: usize>(at: RefusedRecord, out: &mut Text<N>)
    requires { length out.old + answer_room ≤ N }
    ensures { Puts out.old (answer_line (refused at.number (refusal_number at.refusal)))
        answer_room out.new }
{
    out.put(b"no");
    out.put_number(at.refusal.number());
    out.put(b" record");
    put_last(out, at.number);
}

// Puts a number and the line's end.
fn put_last<const N: usize>(out: &mut Text<N>, number: usize)
    requires { length out.old + 22 ≤ N }
    ensures { Puts out.old (then_number number ++ line_end) 22 out.new }
{
    out.put_number(number);
    out.put(b"\n");
}

// Puts the line of a label with its slot and its value.
#[tactic(auto, unfolding(crate::specs::Printouts::line_with, texts::specs::Texts::decimal))]
pub fn put_line<const N: usize>(slot: u16, value: u16, label: &[u8], out: &mut Text<N>)
    requires label_len_bound { length label.now ≤ hub.width }
    requires line_room_in_bounds { length out.old + line_room ≤ N }
    ensures { Puts out.old (line_with slot value label.now) line_room out.new }
{
    out.put_digits(20, slot as usize);
    out.put_number(value as usize);
    put_label(label, out);
}

// Puts a space, a label and the line's end.
fn put_label<const N: usize>(label: &[u8], out: &mut Text<N>)
    requires label_len_bound { length label.now ≤ hub.width }
    requires label_room_in_bounds { length out.old + label_room ≤ N }
    ensures { Puts out.old (then_label label.now) label_room out.new }
{
    out.put(b" ");
    out.put(label);
    out.put(b"\n");
}
