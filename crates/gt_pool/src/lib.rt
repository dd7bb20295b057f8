//! Workers in threads: each index is claimed once and worked on once, and tickets go from worker to worker.
#![tactic(auto)]

mod claim_rule;
mod claim_view;
mod claims;
mod gathering;
mod lists;
mod numbered;
mod placing;
mod running;
mod ticket_rule;
mod ticket_view;
mod tickets;
mod turned;
mod work;
mod worker;
mod workers;

pub use claim_view::ClaimView;
pub use lists::{Kits, Pieces};
pub use running::run_all;
pub use ticket_view::TicketView;
pub use tickets::{TicketPass, Tickets};
pub use work::Work;
