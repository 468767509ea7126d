// The ranges and the standing rows of a ticket with their marks.
#![tactic(auto)]

mod held;
mod store;

pub use forms::RowView;
pub use held::Row;
pub use store::{Blank, Rows};
