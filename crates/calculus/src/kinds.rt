// The lines of a log, without their rows.
ghost use Rattle.std.specs.Prelude.{◌≡◌, IfOk, Some, Ok, ok_or};
ghost use Rattle.calculus.specs.Checking.{kind_of};
ghost use Rattle.calculus.specs.Logs.{fields_of};
ghost use Rattle.calculus.specs.declared.refusals.Refusal.TheVariants.{Kind as NoKind};

use super::refusals::Refusal;

// The five kinds of line, each with what it is made from.
#[derive(Clone, Copy, Debug, PartialEq, Eq)]
pub enum Kind {
    Low {
        unknown: u16,
    },
    High {
        unknown: u16,
    },
    Row {
        place: u16,
    },
    Sum {
        first: u16,
        second: u16,
        k: u32,
        m: u32,
    },
    Cut {
        line: u16,
        k: u32,
    },
}

// The fields of a line as a log holds them. The kind is any byte: a log from another hand may hold one that is no kind's.
#[derive(Clone, Copy, Debug, Default, PartialEq, Eq)]
pub struct Fields {
    pub kind: u8,
    pub i: u16,
    pub j: u16,
    pub k: u32,
    pub m: u32,
}

// The bytes of the kinds.
const LOW: u8 = 1;

const HIGH: u8 = 2;

const ROW: u8 = 3;

const SUM: u8 = 4;

const CUT: u8 = 5;

// The fields of a line of a kind; those that the kind does not use are 0.
impl From<Kind> for Fields {
    ghost from_gives = { λ k f. (f ≡ fields_of k) × (kind_of f ≡ Some k) };

    fn from(kind: Kind) -> Fields
        ensures value { result ≡ fields_of kind }
        ensures back { kind_of result ≡ Some kind }
    {
        let (kind, i, j, k, m) = match kind {
            Kind::Low { unknown } => (LOW, unknown, 0, 0, 0),
            Kind::High { unknown } => (HIGH, unknown, 0, 0, 0),
            Kind::Row { place } => (ROW, place, 0, 0, 0),
            Kind::Sum {
                first,
                second,
                k,
                m,
            } => (SUM, first, second, k, m),
            Kind::Cut { line, k } => (CUT, line, 0, k, 0),
        };
        Fields { kind, i, j, k, m }
    }
}

// The kind that has these fields: none where the byte is that of no kind, or a field is not 0 that the kind does not use.
impl TryFrom<Fields> for Kind {
    type Error = Refusal;

    ghost try_from_gives = { λ f r. (r ≡ ok_or (kind_of f) NoKind) × IfOk r (λ k. fields_of k ≡ f) };

    fn try_from(fields: Fields) -> Result<Kind, Refusal>
        ensures value { result ≡ ok_or (kind_of fields) NoKind }
        ensures from { (k : Kind) → result ≡ Ok k → fields_of k ≡ fields }
    {
        match (fields.kind, fields.i, fields.j, fields.k, fields.m) {
            (LOW, unknown, 0, 0, 0) => Ok(Kind::Low { unknown }),
            (HIGH, unknown, 0, 0, 0) => Ok(Kind::High { unknown }),
            (ROW, place, 0, 0, 0) => Ok(Kind::Row { place }),
            (SUM, first, second, k, m) => Ok(Kind::Sum {
                first,
                second,
                k,
                m,
            }),
            (CUT, line, 0, k, 0) => Ok(Kind::Cut { line, k }),
            _ => Err(Refusal::Kind),
        }
    }
}
