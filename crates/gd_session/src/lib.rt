//! A session of the database tool: one command after another, each answered by the records of the database.
//!
//! `Session::step` answers a command: `specs/Step.antt` has the relation that it owes, one line a command.
#![tactic(auto)]

mod answering;
mod asking;
mod changing;
mod closing;
mod counts;
mod filling;
mod listing;
mod making;
mod moving;
mod numbered;
mod opening;
mod phase;
mod printing;
mod records;
mod reply;
mod request;
mod session;
mod setting;
mod settings;
mod steps;
mod typed;

pub use reply::Reply;
pub use session::Session;
pub use settings::Settings;
