// A count of a group.
use std::fmt;

#[derive(Clone, Copy, Debug, Default, PartialEq, Eq)]
pub struct Count(usize);

impl Count {
    pub fn number(self) -> usize {
        self.0
    }

    // So many more.
    pub fn add(&mut self, more: usize) {
        self.0 = self.0.saturating_add(more);
    }

    pub fn add_if(&mut self, holds: bool) {
        self.add(usize::from(holds));
    }

    // The largest of what it counted and a number.
    pub fn raise_to(&mut self, number: usize) {
        self.0 = self.0.max(number);
    }
}

impl fmt::Display for Count {
    fn fmt<W: fmt::Write>(&self, f: &mut fmt::Formatter<W>) -> fmt::Result {
        let number = self.0;
        write!(f, "{number}")
    }
}
