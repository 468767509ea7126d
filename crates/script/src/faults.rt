// Why a line is no command.
ghost use Rattle.script.specs.Faults.{expected_words};
ghost use Rattle.script.specs.declared.faults.Fault.TheVariants.{Memory, Expected as Awaited};
ghost use Rattle.std.specs.Prelude.{◌≡◌, Some};

use std::alloc::{AllocError, AllocFailed};
use std::fmt;

// What was expected where the reading stopped.
#[derive(Clone, Copy, Debug, PartialEq, Eq)]
pub enum Expected {
    Command,
    Number,
    Label,
    End,
    // a draft, which `draft` begins
    Draft,
    // a settled ticket
    Ticket,
}

impl fmt::Display for Expected {
    ghost output = { λ e. Some (expected_words e) };

    fn fmt<W: fmt::Write>(&self, f: &mut fmt::Formatter<W>) -> fmt::Result {
        f.write_str(match self {
            Expected::Command => "a command",
            Expected::Number => "a number",
            Expected::Label => "a label from 0 to 255",
            Expected::End => "the end of the line",
            Expected::Draft => "`draft` before this command",
            Expected::Ticket => "`settle` before this command",
        })
    }
}

// Why no command was read: want of memory, or something else than what was expected.
#[derive(Clone, Copy, Debug, PartialEq, Eq)]
pub enum Fault {
    Memory,
    Expected(Expected),
}

impl From<Expected> for Fault {
    ghost from_gives = { λ expected fault. fault ≡ Awaited expected };

    fn from(expected: Expected) -> Fault {
        Fault::Expected(expected)
    }
}

impl From<AllocError> for Fault {
    ghost from_gives = { λ _ fault. fault ≡ Memory };

    fn from(_error: AllocError) -> Fault {
        Fault::Memory
    }
}

impl<T: Drop> From<AllocFailed<T>> for Fault {
    ghost from_gives = { λ _ fault. fault ≡ Memory };

    fn from(_error: AllocFailed<T>) -> Fault {
        Fault::Memory
    }
}
