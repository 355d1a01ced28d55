// The module: the register map, refusals 1 to 4 and privilege, pins and requests, and the step from one event to the next. It uses the
// two halves by their contracts alone.
#![tactic(auto)]

pub mod access;
mod claims;
pub mod decision;
mod doing;
pub mod event;
mod holding;
mod holds;
pub mod lanes;
pub mod map;
pub mod own;
pub mod pins;
mod polling;
pub mod queue;
pub mod request;
pub mod serial;
pub mod state;
pub mod word;
