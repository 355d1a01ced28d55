// Traces as people write them: a line of text as a record, in the form that `text` prints it, or as a text sent on RXD.
#![tactic(auto)]

mod accesses;
pub mod encode;
mod figures;
pub mod item;
mod names;
mod scan;
pub mod sent;
mod texts;
