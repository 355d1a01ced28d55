// Logs and traces as text: the answer at the start of a log, the line that shows an answer, the line that shows a record's event, and the
// line that says what is wrong.
#![tactic(auto)]

pub mod account;
pub mod answer;
mod claims;
pub mod difference;
pub mod line;
pub mod log;
pub mod message;
pub mod noise;
pub mod number;
pub mod record;
pub mod register;
pub mod verdict;
