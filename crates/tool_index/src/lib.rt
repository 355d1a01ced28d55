// Marks of a trace: where records 0, 256, 512 and so on start and how many resets came before each, in numbers that the caller lends; and
// the looking up of a record by them.
#![tactic(auto)]

mod claims;
pub mod find;
pub mod index;
pub mod stored;
pub mod walk;
