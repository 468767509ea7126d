// Advisers: what one is, and the steady, blaming and turned ones.
#![tactic(auto)]

mod advisers;
mod blamers;
mod choosers;
mod ends;
mod limits;
mod steadies;
mod telling;
#[cfg(test)]
mod tests;
mod turners;
mod unmade;

pub use advisers::Adviser;
pub use blamers::Blaming;
pub use choosers::AnyAdviser;
pub use ends::Ends;
pub use steadies::Steady;
pub use telling::ask_and_tell;
pub use turners::Turned;
pub use unmade::Unmade;
