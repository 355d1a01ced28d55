// What a command has of the shell that calls it: its options and words, the file that it reads, and the one that it writes.
#![tactic(auto)]

pub mod arguments;
pub mod input;
pub mod line;
pub mod message;
pub mod options;
pub mod target;
