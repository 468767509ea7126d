// The numbered refusals.
ghost use Rattle.calculus.specs.Refusals.{listed};
ghost use Rattle.calculus.specs.Wording.{refusal_worded};
ghost use Rattle.std.specs.Prelude.{◌≡◌, Some};

use std::fmt;

// Why a call was refused.
#[derive(Clone, Copy, Debug, PartialEq, Eq)]
pub enum Refusal {
    Shape = 1,
    Range = 2,
    Weight = 3,
    Label = 4,
    Double = 5,
    Full = 6,
    Marks = 7,
    Unmarked = 8,
    List = 9,
    Misfit = 10,
    Spent = 11,
    Long = 12,
    Wide = 13,
    Log = 14,
    Kind = 15,
    Operand = 16,
    Multiplier = 17,
    Mismatch = 18,
    Open = 19,
    Frame = 20,
}

impl Refusal {
    // The refusal's number: a number, and no type, since it is what answers print.
    pub fn number(self) -> u8
        ensures { result ≡ (listed self).number }
    {
        self as u8
    }

    // The refusal's word. Unlike `Display`, which writes number and word, this cannot fail.
    pub fn word(self) -> &'static str
        ensures { result.now ≡ (listed self).word }
    {
        match self {
            Refusal::Shape => "shape",
            Refusal::Range => "range",
            Refusal::Weight => "weight",
            Refusal::Label => "label",
            Refusal::Double => "double",
            Refusal::Full => "full",
            Refusal::Marks => "marks",
            Refusal::Unmarked => "unmarked",
            Refusal::List => "list",
            Refusal::Misfit => "misfit",
            Refusal::Spent => "spent",
            Refusal::Long => "long",
            Refusal::Wide => "wide",
            Refusal::Log => "log",
            Refusal::Kind => "kind",
            Refusal::Operand => "operand",
            Refusal::Multiplier => "multiplier",
            Refusal::Mismatch => "mismatch",
            Refusal::Open => "open",
            Refusal::Frame => "frame",
        }
    }
}

// The number and the word.
impl fmt::Display for Refusal {
    ghost output = { λ r. Some (refusal_worded r) };

    fn fmt<W: fmt::Write>(&self, f: &mut fmt::Formatter<W>) -> fmt::Result {
        let number = self.number();
        let word = self.word();
        write!(f, "{number} {word}")
    }
}
