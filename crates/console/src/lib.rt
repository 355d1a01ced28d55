// What commands share at the console: how they start, what they write, the statuses that they end with, and the words of their messages.
#![tactic(auto)]

pub mod command;
pub mod input;
pub mod message;
pub mod output;
pub mod status;
pub mod stop;
