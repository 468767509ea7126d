// The rules of the planner as definitions, the small types that all crates share, and the laws of both.
#![tactic(auto)]

mod endings;
mod kinds;
mod laws;
mod limits;
mod promises;
mod ranges;
mod refusals;
mod sides;
mod trails;

pub use endings::{Ending, Objection};
pub use kinds::{Fields, Kind};
pub use laws::{
    account_stands, advisers_stand, arithmetic_stands, checks_stand, meeting_stands, moves_stand,
    runs_stand, table_stands, worked_cases_stand, worked_runs_stand,
};
pub use limits::{
    MAX_COEFFICIENT, MAX_CONSTANT, MAX_END, MAX_LINES, MAX_MARKS, MAX_ROWS, MAX_UNKNOWNS,
};
pub use promises::{days_stand, promises_stand};
pub use ranges::Range;
pub use refusals::Refusal;
pub use sides::Side;
pub use trails::{Bound, Entry};
