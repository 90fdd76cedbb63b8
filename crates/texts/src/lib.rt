// The line that answers a line of `hubshell`, put behind a text. Bytes and numbers are put by methods of their own,
// which serve other lines too. No `Display`: a `write!` may fail by its contract, and here the line is put in every
// case.
#![tactic(auto)]

mod text;

pub use text::Text;
use types::{Refusal, Searched, Updated};

// What the call that a line asks answers.
#[derive(Clone, Copy, Debug, PartialEq, Eq)]
pub enum Said {
    Update(Result<Updated, Refusal>),
    Search(Result<Searched, Refusal>),
}

#[tactic(auto, unfolding(crate::specs::Texts::text_of, crate::specs::Texts::bad_text))]
impl<const N: usize> Text<N> {
    ghost use Rattle.std.specs.Prelude.{◌++◌, ◌≤◌, ◌+◌, length};
    ghost use Rattle.types.specs.Answers.{search_says, update_says, refusal_number, refused};
    ghost use Rattle.texts.specs.Texts.{text_of, text_said, then_number, then_counts};
    ghost use Rattle.texts.specs.Puts.{Puts};

    // Puts the line for what is said: `bad` to a line that asks nothing.
    pub fn put_said(&mut self, said: Option<Said>)
        requires { length self.old + 96 ≤ N }
        ensures { Puts self.old (text_said said) 96 self.new }
    {
        match said {
            Some(Said::Update(answer)) => self.put_update(answer),
            Some(Said::Search(answer)) => self.put_search(answer),
            None => self.put(b"bad\n"),
        }
    }

    // Puts the line for a search's answer.
    fn put_search(&mut self, answer: Result<Searched, Refusal>)
        requires { length self.old + 96 ≤ N }
        ensures { Puts self.old (text_of (search_says answer)) 96 self.new }
    {
        match answer {
            Ok(
                Searched::Found {
                    value,
                    visits,
                    places,
                    ..
                },
            ) => {
                self.put(b"found");
                self.put_answer(value as usize, visits, places);
            }
            Ok(Searched::Absent { visits, places, .. }) => {
                self.put(b"absent");
                self.put_counts(visits, places);
            }
            Err(refusal) => self.put_refusal(refusal),
        }
    }

    // Puts the line for the answer of an insert or a delete.
    fn put_update(&mut self, answer: Result<Updated, Refusal>)
        requires { length self.old + 96 ≤ N }
        ensures { Puts self.old (text_of (update_says answer)) 96 self.new }
    {
        match answer {
            Ok(updated) => {
                self.put(b"ok");
                self.put_answer(updated.slot, updated.visits, updated.places);
            }
            Err(refusal) => self.put_refusal(refusal),
        }
    }

    // Puts the line for a refusal.
    fn put_refusal(&mut self, refusal: Refusal)
        requires { length self.old + 96 ≤ N }
        ensures { Puts self.old (text_of (refused (refusal_number refusal))) 96 self.new }
    {
        self.put(b"no");
        self.put_number(refusal.number());
        self.put(b"\n");
    }

    // Puts a number, both counts of a search and the line's end.
    fn put_answer(&mut self, number: usize, visits: usize, places: usize)
        requires { length self.old + 64 ≤ N }
        ensures { Puts self.old (then_number number ++ then_counts visits places) 64 self.new }
    {
        self.put_number(number);
        self.put_counts(visits, places);
    }

    // Puts both counts of a search and the line's end.
    fn put_counts(&mut self, visits: usize, places: usize)
        requires { length self.old + 43 ≤ N }
        ensures { Puts self.old (then_counts visits places) 43 self.new }
    {
        self.put_number(visits);
        self.put_number(places);
        self.put(b"\n");
    }
}
