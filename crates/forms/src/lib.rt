// Whole-number arithmetic, reduced forms and doubles.
#![tactic(auto)]

mod arithmetic;
mod doubles;
mod rows;

pub use arithmetic::is_near;
pub use doubles::Reduced;
pub use rows::RowView;
