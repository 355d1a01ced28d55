// The queue side of the module: SPCR0 to SPCR3, SPSR, the queue RAM, and the queue clock by clock.
#![tactic(auto)]

mod claims;
pub mod clocks;
pub mod entry;
pub mod falls;
pub mod fields;
pub mod inputs;
pub mod outputs;
pub mod queue;
pub mod ram;
pub mod registers;
mod rounds;
pub mod same;
pub mod spsr;

use crate::entry::Entry;
use crate::queue::Next;
use crate::ram::Ram;
use crate::registers::Registers;
use crate::spsr::Spsr;

// What is read and written: the registers, SPSR and the queue RAM; and where the queue stands: what comes next, and the entry under way.
#[repr(C)]
#[derive(Clone, Copy, PartialEq, Eq)]
pub struct Qspi {
    pub registers: Registers,
    pub spsr: Spsr,
    pub ram: Ram,
    pub next: Next,
    pub entry: Entry,
}

// The last input levels, the pin assignment and the directions: bit 0 MISO, 1 MOSI, 2 SCK, 3 to 6 PCS0 to PCS3, 7 TXD.
#[derive(Clone, Copy)]
pub struct Pins {
    pub levels: u8,
    pub pqspar: u8,
    pub ddrqs: u8,
}
