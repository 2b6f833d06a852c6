ghost use Rattle.std.specs.Prelude.{◌+◌, ◌^◌};
ghost use Rattle.replay.specs.Tally.{Within};

use std::ops::Add;

// What became of a line.
#[derive(Clone, Copy, Debug, PartialEq, Eq)]
pub(crate) enum Outcome {
    Comment,
    Malformed,
    Differs,
    Equal,
}

// The lines passed, the cases among them, how many came out equal, and the first line that is malformed and that
// differs.
#[derive(Clone, Copy, Debug, PartialEq, Eq)]
pub(crate) struct Tally {
    pub(crate) lines: u64,
    pub(crate) read: u64,
    pub(crate) equal: u64,
    pub(crate) malformed: Option<u64>,
    pub(crate) differs: Option<u64>,
}

impl Tally {
    pub(crate) fn new() -> Tally
        ensures { Within result 0 }
    {
        Tally {
            lines: 0,
            read: 0,
            equal: 0,
            malformed: None,
            differs: None,
        }
    }

    pub(crate) fn counted(self, outcome: Outcome) -> Tally
        requires { Within self (2 ^ 63) }
        ensures { Within result (self.lines + 1) }
    {
        let line = self.lines + 1;
        let passed = Tally {
            lines: line,
            ..self
        };
        let read = Tally {
            read: self.read + 1,
            ..passed
        };
        match outcome {
            Outcome::Comment => passed,
            Outcome::Malformed => Tally {
                malformed: self.malformed.or(Some(line)),
                ..read
            },
            Outcome::Differs => Tally {
                differs: self.differs.or(Some(line)),
                ..read
            },
            Outcome::Equal => Tally {
                equal: self.equal + 1,
                ..read
            },
        }
    }
}

// The lines of two files, of which none is the first.
impl Add for Tally {
    type Output = Tally;

    ghost can_add = { λ a b. Within a (2 ^ 62) × Within b (2 ^ 62) };

    ghost add_gives = { λ a b r. Within r (a.lines + b.lines) };

    fn add(self, other: Tally) -> Tally {
        Tally {
            lines: self.lines + other.lines,
            read: self.read + other.read,
            equal: self.equal + other.equal,
            malformed: None,
            differs: None,
        }
    }
}
