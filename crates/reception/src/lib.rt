// What a module received, told by its state: the words that enter SCDR, their tally, and the account of frames.
#![tactic(auto)]

pub mod account;
pub mod arrival;
mod claims;
pub mod tally;
