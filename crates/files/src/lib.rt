// Files, arguments and messages, so that a program is a page. What the system gives and takes, no contract
// can say.
#![tactic(auto)]

pub mod command;
pub mod input;
pub mod message;
pub mod origin;
pub mod output;
pub mod pieces;
pub mod progress;
pub mod system;
pub mod version;
pub mod whole;
pub mod words;
