// How a run ends, and why a log is not accepted.
use super::refusals::Refusal;

// The answer of a run: one of the three that are printed. A Result of a two-valued answer would say it in two steps.
#[derive(Clone, Copy, Debug, PartialEq, Eq)]
pub enum Ending {
    Plan,
    NoPlan,
    Refused(Refusal),
}

// Why a check does not accept: the log is for another number of unknowns; a line is wrong; or the log is open, with no line at all or a
// last one that is no contradiction.
#[derive(Clone, Copy, Debug, PartialEq, Eq)]
pub enum Objection {
    Misfit,
    // 15 to 18, for the first wrong line.
    Wrong { refusal: Refusal, line: usize },
    Open { held: usize },
}
