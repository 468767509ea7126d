// A day script, run: each line read, its command done through the ticket, its answer worded.
#![tactic(auto)]

mod commands;
mod laws;
mod lines;
mod scripts;
mod stages;

pub use laws::day_stands;
pub use scripts::{Stop, run_script};
