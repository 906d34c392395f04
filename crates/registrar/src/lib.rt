// The registrar's calls (01's desk): a message, and the host's issue, refuse, lapse and close.
#![tactic(auto)]

mod answers;
pub mod host;
mod rows;
pub mod slots;
mod states;
pub mod step;
