// The queue's registers as words: reset, reads, writes by byte lanes, and what a write is refused for.
ghost use Rattle.std.specs.Prelude.{◌≡◌, true, false};
ghost use Rattle.qspi.specs.model.Registers.{disabled, reset, spcr0_word, spcr1_word, spcr2_word, spcr3_spsr, status_read, risen, switched, write_spcr0, write_spcr1, spcr2_bits, write_spcr2, write_spcr3_spsr, spcr0_unmodelled, spcr1_unmodelled, spcr3_unmodelled, spcr0_guarded, spcr1_guarded};

use crate::Qspi;
use crate::entry::Entry;
use crate::fields::{mstr, spe};
use crate::queue::Next;
use crate::ram::Ram;
use crate::spsr::{Flags, Spsr};
use steps::{choose, merge, upper_byte, word};

// SPCR3 stands first for the speed alone.
#[repr(C)]
#[derive(Clone, Copy, PartialEq, Eq)]
pub struct Registers {
    pub spcr3: u8,
    pub spcr0: u16,
    pub spcr1: u16,
    pub spcr2: u16,
}

impl Registers {
    // SPE falls.
    // Ruled out: SPE kept; DSCKL or DTL cleared with it.
    pub fn disabled(mut self) -> Registers
        ensures { result ≡ disabled self }
    {
        self.spcr1 = self.spcr1 % 0x8000;
        self
    }
}

// A word of SPCR2 without the bits that don't exist.
fn spcr2_bits(w: u16) -> u16
    ensures { result ≡ spcr2_bits w }
{
    w / 0x2000 * 0x2000 + w / 256 % 16 * 256 + w % 16
}

// Ruled out: WOMQ alone; BITS of 0 or 8; a write of the lower byte.
pub fn spcr0_unmodelled(v: u16, upper: bool) -> bool
    ensures { result ≡ spcr0_unmodelled v upper }
{
    let bits = v / 0x400 % 16;
    upper & ((v / 0x4000 % 2 == 1) | ((1 <= bits) & (bits <= 7)))
}

// Ruled out: another bit; a write of the lower byte.
pub fn spcr3_unmodelled(v: u16, upper: bool) -> bool
    ensures { result ≡ spcr3_unmodelled v upper }
{
    upper & (v / 0x400 % 2 == 1)
}

impl Qspi {
    // Ruled out: all zero; CPHA clear; a word of RAM kept.
    pub fn reset() -> Qspi
        ensures { result ≡ reset }
    {
        let none = Flags {
            spif: false,
            modf: false,
            halta: false,
        };
        Qspi {
            registers: Registers {
                spcr0: 0x0104,
                spcr1: 0x0404,
                spcr2: 0,
                spcr3: 0,
            },
            spsr: Spsr {
                flags: none,
                seen: none,
                cptqp: 0,
            },
            next: Next {
                working: 0,
                pointer: 0,
                pending: false,
            },
            entry: Entry {
                command: 0,
                word: 0,
                playing: false,
                delaying: false,
                halted: false,
                left: 0,
                edges: 0,
                mosi: false,
                collected: 0,
                selecting: false,
            },
            ram: Ram {
                receive: [0; 16],
                transmit: [0; 16],
                commands: [0; 16],
            },
        }
    }

    // Ruled out: another register.
    pub fn spcr0(self) -> u16
        ensures { result ≡ spcr0_word self }
    {
        self.registers.spcr0
    }

    // Ruled out: another register.
    pub fn spcr1(self) -> u16
        ensures { result ≡ spcr1_word self }
    {
        self.registers.spcr1
    }

    // Ruled out: the working copy.
    pub fn spcr2(self) -> u16
        ensures { result ≡ spcr2_word self }
    {
        self.registers.spcr2
    }

    // Ruled out: the bytes swapped; a flag in another place; the pointer for CPTQP.
    pub fn spcr3_spsr(self) -> u16
        ensures { result ≡ spcr3_spsr self }
    {
        let spsr = self.spsr;
        word(self.registers.spcr3, spsr.byte())
    }

    // Ruled out: a flag marked that is clear; an older mark forgotten.
    pub fn status_read(mut self) -> Qspi
        ensures { result ≡ status_read self }
    {
        let spsr = self.spsr;
        self.spsr = spsr.flags_seen();
        self
    }

    fn abandoned(mut self) -> Qspi
        ensures { result ≡ switched true false self }
    {
        let entry = self.entry;
        self.entry = entry.abandoned();
        self
    }

    fn risen(mut self) -> Qspi
        ensures { result ≡ risen self }
    {
        let spcr2 = self.registers.spcr2;
        let newqp = (spcr2 % 16) as u8;
        self.next.working = spcr2;
        self.next.pointer = newqp;
        let entry = self.entry;
        self.entry = entry.abandoned().silent();
        self
    }

    // SPE before and after a write.
    fn switched(self, before: bool, after: bool) -> Qspi
        ensures { result ≡ switched before after self }
    {
        if before {
            if after { self } else { self.abandoned() }
        } else {
            if after { self.risen() } else { self }
        }
    }

    // Ruled out: an untouched byte changed; a running entry touched.
    pub fn write_spcr0(mut self, v: u16, upper: bool, lower: bool) -> Qspi
        ensures { result ≡ write_spcr0 self v upper lower }
    {
        let spcr0 = merge(self.registers.spcr0, v, upper, lower);
        self.registers.spcr0 = spcr0;
        self
    }

    // Ruled out: SPE written one while one taken for a rise; the entry going on when SPE is cleared; the pointer kept.
    pub fn write_spcr1(mut self, v: u16, upper: bool, lower: bool) -> Qspi
        ensures { result ≡ write_spcr1 self v upper lower }
    {
        let before = spe(self.registers.spcr1);
        let spcr1 = merge(self.registers.spcr1, v, upper, lower);
        self.registers.spcr1 = spcr1;
        self.switched(before, spe(spcr1))
    }

    // Ruled out: NEWQP rewritten with its own value skipped; the working copy written; a bit stored that doesn't exist.
    pub fn write_spcr2(mut self, v: u16, upper: bool, lower: bool) -> Qspi
        ensures { result ≡ write_spcr2 self v upper lower }
    {
        let pending = self.next.pending | lower;
        let spcr2 = spcr2_bits(merge(self.registers.spcr2, v, upper, lower));
        self.next.pending = pending;
        self.registers.spcr2 = spcr2;
        self
    }

    // Ruled out: a flag falling unseen, or by a one; a flag set by a write; CPTQP written.
    pub fn write_spcr3_spsr(mut self, v: u16, upper: bool, lower: bool) -> Qspi
        ensures { result ≡ write_spcr3_spsr self v upper lower }
    {
        let spcr3 = choose(upper, upper_byte(v) % 8, self.registers.spcr3);
        self.registers.spcr3 = spcr3;
        let spsr = self.spsr;
        self.spsr = spsr.written(v, lower);
        self
    }

    // Ruled out: SPE refused with MSTR set; a write of the lower byte refused.
    pub fn spcr1_unmodelled(self, v: u16, upper: bool) -> bool
        ensures { result ≡ spcr1_unmodelled self v upper }
    {
        upper & spe(v) & !mstr(self.registers.spcr0)
    }

    // Ruled out: the same value refused; a change let through; refused with SPE clear.
    pub fn spcr0_guarded(self, v: u16, upper: bool, lower: bool) -> bool
        ensures { result ≡ spcr0_guarded self v upper lower }
    {
        spe(self.registers.spcr1)
            & !(merge(self.registers.spcr0, v, upper, lower) == self.registers.spcr0)
    }

    // Ruled out: SPE's own change refused; a change of DTL let through.
    pub fn spcr1_guarded(self, v: u16, upper: bool, lower: bool) -> bool
        ensures { result ≡ spcr1_guarded self v upper lower }
    {
        spe(self.registers.spcr1)
            & !(merge(self.registers.spcr1, v, upper, lower) % 0x8000
                == self.registers.spcr1 % 0x8000)
    }
}
