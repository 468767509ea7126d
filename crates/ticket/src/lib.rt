// What users call: a draft takes unknowns, settling it gives a ticket, and a ticket takes rows.
#![tactic(auto)]

mod drafts;
mod tickets;

pub use drafts::Draft;
pub use tickets::Ticket;
