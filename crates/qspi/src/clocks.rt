// So many clocks of the queue: those in which nothing but the count changes are taken at once.
ghost use Rattle.std.specs.Prelude.{◌≡◌, ◌-◌};
ghost use Rattle.steps.specs.Iterate.{iterate};
ghost use Rattle.qspi.specs.model.Queue.{clock};
ghost use Rattle.qspi.specs.quick.Quiet.{counted_down, before_change, quiet_if, quiet, skipped_if, skipped, plays, at_least_one, until_edge, edge_within};

use crate::entry::Entry;
use crate::fields::{bits_of, cont, spbr, spe};
use crate::inputs::miso_of;
use crate::rounds::LONG;
use crate::{Pins, Qspi};
use steps::choose;

// Clocks before the next edge, the delay's end or clock 1.
fn before_change(running: bool, ready: bool, left: u16) -> u32
    ensures { result ≡ before_change running ready left }
{
    if running {
        return left.saturating_sub(1) as u32;
    }
    if ready { 0 } else { 4294967295 }
}

// A count less k clocks.
fn less(left: u16, k: u32) -> u16
    ensures { result ≡ left - k }
{
    (left as u32).saturating_sub(k) as u16
}

// Clocks to an edge, with its own.
fn at_least_one(left: u16) -> u32
    ensures { result ≡ at_least_one left }
{
    left.max(1) as u32
}

impl Entry {
    // k quiet clocks. In the delay PCS stay only with CONT.
    fn counted_down(mut self, k: u32) -> Entry
        ensures { result ≡ counted_down k self }
    {
        self.left = less(self.left, k);
        self.selecting = (self.playing | cont(self.command)) & self.selecting;
        self
    }

    // Clocks to the next edge, with its own.
    pub(crate) fn until_edge(self) -> u32
        ensures { result ≡ until_edge self }
    {
        at_least_one(self.left)
    }

    // An edge before edge 2n falls in the next n clocks.
    // Ruled out: edge 2n; an edge one clock later.
    pub fn edge_within(self, spcr0: u16, n: u32) -> bool
        ensures { result ≡ edge_within spcr0 n self }
    {
        let early = ((self.edges % 32 + 1) as u16) < bits_of(spcr0, self.command) * 2;
        (self.until_edge() <= n) & early
    }
}

impl Qspi {
    fn quiet_if(self, enabled: bool, fault: bool) -> u32
        ensures { result ≡ quiet_if enabled fault self }
    {
        if enabled {
            if fault {
                0
            } else {
                before_change(
                    self.entry.playing | self.entry.delaying,
                    self.ready(),
                    self.entry.left,
                )
            }
        } else {
            4294967295
        }
    }

    // Clocks in which nothing but the count to the next edge or the delay's end changes, as far as a hold can go.
    // Ruled out: the clock of an edge counted; a mode fault that is due passed over.
    pub fn quiet(self, pins: Pins) -> u32
        ensures { result ≡ quiet self pins }
    {
        self.quiet_if(spe(self.registers.spcr1), self.fault_now(pins))
    }

    fn skipped_if(mut self, counts: bool, k: u32) -> Qspi
        ensures { result ≡ skipped_if counts k self }
    {
        if counts {
            let entry = self.entry;
            self.entry = entry.counted_down(k);
            return self;
        }
        self
    }

    // k quiet clocks.
    // Ruled out: a count that goes down with SPE clear; PCS back at PORTQS after no clock of the delay.
    pub fn skipped(self, k: u32) -> Qspi
        ensures { result ≡ skipped k self }
    {
        self.skipped_if(
            (0 < k) & spe(self.registers.spcr1) & (self.entry.playing | self.entry.delaying),
            k,
        )
    }

    // An entry runs, with no mode fault due.
    // Ruled out: the delay; an entry that a mode fault ends.
    pub fn plays(self, pins: Pins) -> bool
        ensures { result ≡ plays self pins }
    {
        spe(self.registers.spcr1) & !self.fault_now(pins) & self.entry.playing
    }

    // n clocks, each run of quiet ones at once, and the edges before edge 2n in the entry alone.
    pub(crate) fn played(self, n: u32, pins: Pins) -> Qspi
        ensures { result ≡ iterate n (λ q. clock q pins) self }
    {
        let miso = miso_of(pins);
        let mut q = self;
        let mut left = n;
        while 0 < left {
            if q.plays(pins) {
                let spcr0 = q.registers.spcr0;
                let e = q.entry;
                let last = bits_of(spcr0, e.command) * 2;
                let gap = at_least_one(spbr(spcr0));
                let mut j = e.edges % 32;
                let mut until = e.until_edge();
                while (until <= left) & (((j + 1) as u16) < last) {
                    left -= until;
                    until = gap;
                    j += 1;
                }
                q.entry = e.edges_fallen(spcr0, j, miso);
            }
            let k = q.quiet(pins);
            if left <= k {
                return q.skipped(left);
            }
            q = q.skipped(k).clock(pins);
            left -= k + 1;
        }
        q
    }

    // n clocks at one state of the pins. The cost doesn't grow with n: at most the edges up to the queue's end, and where it wraps those of
    // three rounds, or of 4,096 clocks, more. A queue that is idle, halted or finished is still, and one that wraps comes back to a state.
    // Ruled out: only the first clock played; one clock too many; an edge lost among the quiet clocks; a period one clock off taken out.
    pub fn clocks(self, n: u32, pins: Pins) -> Qspi
        ensures { result ≡ iterate n (λ q. clock q pins) self }
    {
        if n <= self.quiet(pins) {
            return self.skipped(n);
        }
        if n <= LONG {
            return self.played(n, pins);
        }
        self.rounds(n, pins)
    }
}
