// One clock of the queue: clock 1 of an entry, its edges, what edge 2n leaves, the delay, halt and mode fault.
ghost use Rattle.std.specs.Prelude.{◌≡◌, cond, ◌<◌};
ghost use Rattle.qspi.specs.model.Queue.{wrap_to, entry_at, begun, stored, finished, wrapped, advanced, followed, completed, judged, edge, counted, play_clock, delayed, delay_clock, ready, clock_at, queue_clock, fault_now, faulted, clock};

use crate::entry::started;
use crate::fields::{bits_of, delay_after, halt, mstr, spbr, spe, wren};
use crate::inputs::{miso_of, selected};
use crate::{Pins, Qspi};
use steps::choose;

// What comes next: the working copy of SPCR2, the pointer, and whether a write touched NEWQP since the last clock 1.
#[repr(C)]
#[derive(Clone, Copy, PartialEq, Eq)]
pub struct Next {
    pub working: u16,
    pub pointer: u8,
    pub pending: bool,
}

// Where a queue with WREN goes on after its end.
pub(crate) fn wrap_to(working: u16) -> u8
    ensures { result ≡ wrap_to working }
{
    choose(working / 0x2000 % 2 == 1, (working % 16) as u8, 0)
}

impl Qspi {
    fn entry_at(self) -> u8
        ensures value { result ≡ entry_at self }
        ensures small { result < 16 }
    {
        if self.next.pending {
            (self.registers.spcr2 % 16) as u8
        } else {
            self.next.pointer % 16
        }
    }

    // Clock 1 takes the working copy, the command and the transmit word.
    pub(crate) fn begun(mut self) -> Qspi
        ensures { result ≡ begun self }
    {
        let at = self.entry_at();
        let i = at as usize;
        let commands = self.ram.commands;
        let transmit = self.ram.transmit;
        let registers = self.registers;
        self.next.working = registers.spcr2;
        self.next.pointer = at;
        self.next.pending = false;
        self.entry = started(registers, commands[i], transmit[i], self.entry.mosi);
        self
    }

    fn stored(mut self) -> Qspi
        ensures { result ≡ stored self }
    {
        let at = self.next.pointer % 16;
        let ram = self.ram;
        self.ram = ram.received(self.next.pointer, self.entry.collected);
        self.spsr.cptqp = at;
        let entry = self.entry;
        self.entry = entry.delay_begun(delay_after(self.registers.spcr1, entry.command));
        self
    }

    fn finished(mut self) -> Qspi
        ensures { result ≡ finished self }
    {
        let registers = self.registers;
        self.registers = registers.disabled();
        self.spsr.flags.spif = true;
        let entry = self.entry;
        self.entry = entry.abandoned();
        self
    }

    fn wrapped(mut self) -> Qspi
        ensures { result ≡ wrapped self }
    {
        self.spsr.flags.spif = true;
        let to = wrap_to(self.next.working);
        self.next.pointer = to;
        self
    }

    fn advanced(mut self) -> Qspi
        ensures { result ≡ advanced self }
    {
        let to = (self.next.pointer % 16 + 1) % 16;
        self.next.pointer = to;
        self
    }

    // Where the queue goes on: `last` at the working ENDQP.
    fn followed(self, last: bool, wrap: bool) -> Qspi
        ensures { result ≡ followed last wrap self }
    {
        if last {
            if wrap {
                self.wrapped()
            } else {
                self.finished()
            }
        } else {
            self.advanced()
        }
    }

    fn completed(self) -> Qspi
        ensures { result ≡ completed self }
    {
        let last = (self.next.pointer % 16) as u16 == self.next.working / 256 % 16;
        self.stored().followed(last, wren(self.next.working))
    }

    fn judged(self, end: bool) -> Qspi
        ensures { result ≡ judged end self }
    {
        if end { self.completed() } else { self }
    }

    // Edge j, which is edge 2n or an earlier one.
    fn edge(mut self, j: u8, miso: bool) -> Qspi
        ensures { result ≡ edge j miso self }
    {
        let end = bits_of(self.registers.spcr0, self.entry.command) * 2 <= j as u16;
        let entry = self.entry;
        self.entry = entry.edge_fallen(self.registers.spcr0, j, miso);
        self.judged(end)
    }

    fn counted(mut self, now: bool, miso: bool) -> Qspi
        ensures { result ≡ counted now miso self }
    {
        if now {
            return self.edge(self.entry.edges % 32 + 1, miso);
        }
        let entry = self.entry;
        self.entry = entry.ticked();
        self
    }

    fn play_clock(self, miso: bool) -> Qspi
        ensures { result ≡ play_clock miso self }
    {
        self.counted(self.entry.left <= 1, miso)
    }

    fn delayed(mut self, last: bool) -> Qspi
        ensures { result ≡ delayed last self }
    {
        let entry = self.entry;
        if last {
            let halts = halt(self.registers.spcr3);
            let halta = halts | self.spsr.flags.halta;
            self.spsr.flags.halta = halta;
            self.entry = entry.delay_over(halts);
            return self;
        }
        self.entry = entry.in_delay();
        self
    }

    fn delay_clock(self) -> Qspi
        ensures { result ≡ delay_clock self }
    {
        self.delayed(self.entry.left <= 1)
    }

    // Ruled out: an entry started with SPBR 1; HALT asked in a queue that is not halted.
    pub fn ready(self) -> bool
        ensures { result ≡ ready self }
    {
        (2 <= spbr(self.registers.spcr0)) & !(self.entry.halted & halt(self.registers.spcr3))
    }

    fn begun_if(self, starts: bool) -> Qspi
        ensures { result ≡ cond starts (begun self) self }
    {
        if starts { self.begun() } else { self }
    }

    // An entry that clock 1 has just taken up is played like one that runs.
    fn run_clock(self, playing: bool, delaying: bool, miso: bool) -> Qspi
        ensures { result ≡ cond playing (play_clock miso self) (cond delaying (delay_clock self) self) }
    {
        if playing {
            return self.play_clock(miso);
        }
        if delaying { self.delay_clock() } else { self }
    }

    fn clock_at(self, miso: bool) -> Qspi
        ensures { result ≡ clock_at self.entry.playing self.entry.delaying miso self }
    {
        let q = self.begun_if(!self.entry.playing & !self.entry.delaying & self.ready());
        q.run_clock(q.entry.playing, q.entry.delaying, miso)
    }

    fn queue_clock(self, miso: bool) -> Qspi
        ensures { result ≡ queue_clock miso self }
    {
        if spe(self.registers.spcr1) {
            self.clock_at(miso)
        } else {
            self
        }
    }

    // Ruled out: a fault with SPE clear; a fault with PCS0 an output.
    pub fn fault_now(self, pins: Pins) -> bool
        ensures { result ≡ fault_now self pins }
    {
        spe(self.registers.spcr1) & mstr(self.registers.spcr0) & selected(pins)
    }

    fn faulted(mut self, fault: bool) -> Qspi
        ensures { result ≡ faulted fault self }
    {
        if fault {
            let registers = self.registers;
            self.registers = registers.disabled();
            self.spsr.flags.modf = true;
            let entry = self.entry;
            self.entry = entry.abandoned();
            return self;
        }
        self
    }

    // One system clock.
    // Ruled out: only the first entry played; the receive word stored on an abandoned entry; the delay one clock short;
    // MISO read on the other edges; the register's ENDQP for the working one; HALTA raised without the delay.
    pub fn clock(self, pins: Pins) -> Qspi
        ensures { result ≡ clock self pins }
    {
        self.faulted(self.fault_now(pins))
            .queue_clock(miso_of(pins))
    }
}
