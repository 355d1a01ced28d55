// Long holds of a queue that wraps: from a state that it comes back to, whole rounds are left out.
ghost use Rattle.std.specs.Prelude.{◌≡◌, cond, ◌%◌, ◌<◌, ◌≤◌};
ghost use Rattle.steps.specs.Iterate.{iterate};
ghost use Rattle.qspi.specs.model.Queue.{clock};

use crate::entry::Entry;
use crate::fields::{bits_of, delay_after, spbr, spe, wren};
use crate::queue::wrap_to;
use crate::{Pins, Qspi};

// In a hold of fewer clocks a round is not looked for.
pub(crate) const LONG: u32 = 4096;

// What is left of n clocks without whole periods of p.
fn rest(periodic: bool, n: u32, p: u32) -> u32
    requires { 0 < p }
    ensures value { result ≡ cond periodic (n % p) n }
    ensures less { result ≤ n }
{
    if periodic { n % p } else { n }
}

impl Entry {
    // Clocks from the next edge to edge 2n.
    fn until_last(self, spcr0: u16) -> u32
        ensures { result ≤ 8160 }
    {
        let edges = (bits_of(spcr0, self.command) * 2).saturating_sub((self.edges % 32 + 1) as u16);
        (edges as u32) * (spbr(spcr0) as u32)
    }

    // Clocks to the end of the delay, with those of an entry that runs.
    fn until_over(self, spcr0: u16, spcr1: u16) -> u32
        ensures { 1 ≤ result }
    {
        if self.playing {
            let delay = delay_after(spcr1, self.command);
            return self.until_edge() + self.until_last(spcr0) + (delay as u32);
        }
        self.until_edge()
    }
}

impl Qspi {
    // Clocks to the next clock 1, to the one after it where it is due, and all where none comes. The cost depends on it, not the result.
    fn until_start(self) -> u32
        ensures { 1 ≤ result }
    {
        let spcr0 = self.registers.spcr0;
        let spcr1 = self.registers.spcr1;
        if self.entry.playing | self.entry.delaying {
            return self.entry.until_over(spcr0, spcr1);
        }
        if spe(spcr1) & self.ready() {
            let q = self.begun();
            return q.entry.until_over(spcr0, spcr1);
        }
        4294967295
    }

    // Clocks of the n left that are played before the state is looked at: all, or an entry of a queue that wraps.
    fn stretch(self, n: u32) -> u32
        requires { 0 < n }
        ensures { (1 ≤ result) × (result ≤ n) }
    {
        if (LONG < n) & wren(self.registers.spcr2) {
            return n.min(self.until_start());
        }
        n
    }

    // n clocks. Where a queue has wrapped, its state is compared with the one there a round ago: if they are one, the clocks between
    // them are a period, and whole periods of the clocks left are left out.
    pub(crate) fn rounds(self, n: u32, pins: Pins) -> Qspi
        ensures { result ≡ iterate n (λ q. clock q pins) self }
    {
        let first = wrap_to(self.registers.spcr2);
        let mut q = self;
        let mut left = n;
        let mut saved = self;
        let mut saved_left = n;
        while 0 < left {
            let k = q.stretch(left);
            q = q.played(k, pins);
            left -= k;
            if (LONG < left) & (q.next.pointer == first) {
                left = rest(q.same(saved), left, saved_left - left);
                saved = q;
                saved_left = left;
            }
        }
        q
    }
}
