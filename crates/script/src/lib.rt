// The day script: what a line of it says, and how an answer is worded. Running a command is done elsewhere.
#![tactic(auto)]

mod answers;
mod commands;
mod faults;
mod laws;
mod numbers;
mod words;

pub use answers::Answer;
pub use commands::{Command, read_command};
pub use faults::{Expected, Fault};
pub use laws::reading_stands;
