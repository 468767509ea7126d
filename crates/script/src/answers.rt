// The wording of answers.
ghost use Rattle.script.specs.Answers.{worded};
ghost use Rattle.std.specs.Prelude.{Some};

use calculus::Refusal;
use keywords::Later;
use std::fmt;

// What a command is answered.
#[derive(Clone, Copy, Debug, PartialEq, Eq)]
pub enum Answer {
    Draft,
    Unknown(usize),
    Settled(usize),
    Added,
    Marked,
    Returned,
    Refused(Refusal),
    Rows(usize),
    NotOffered(Later),
}

impl fmt::Display for Answer {
    ghost output = { λ a. Some (worded a) };

    fn fmt<W: fmt::Write>(&self, f: &mut fmt::Formatter<W>) -> fmt::Result {
        match *self {
            Answer::Draft => f.write_str("draft"),
            Answer::Unknown(unknown) => write!(f, "unknown {unknown}"),
            Answer::Settled(unknowns) => write!(f, "settled {unknowns}"),
            Answer::Added => f.write_str("added"),
            Answer::Marked => f.write_str("marked"),
            Answer::Returned => f.write_str("returned"),
            Answer::Refused(refusal) => write!(f, "refused {refusal}"),
            Answer::Rows(rows) => write!(f, "rows {rows}"),
            Answer::NotOffered(later) => write!(f, "not offered yet: {later}"),
        }
    }
}
