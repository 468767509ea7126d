// Logs: what a log is, the log in numbers, and the quota over any log.
#![tactic(auto)]

mod appending;
mod lines;
mod logs;
mod numbers;
mod quotas;
#[cfg(test)]
mod tests;

pub use lines::{add_line, copy_line};
pub use logs::Log;
pub use numbers::{Numbers, Unopened};
pub use quotas::Quota;
