// The serial half (SCI): status flags and how they fall, prescaler, receiver, transmitter, and the accesses to SCCR0, SCCR1, SCSR and
// SCDR. It knows nothing of the queue half. State goes in and comes back by value; every function answers every value of every field.
#![tactic(auto)]

mod accesses;
pub mod account;
mod adjustment;
pub mod bits;
mod claims;
pub mod clocks;
pub mod control;
pub mod flags;
pub mod framer;
mod in_bit;
pub mod receiver;
pub mod serial;
pub mod status;
pub mod transmitter;
