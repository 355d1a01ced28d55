// So many clocks of the serial half, those that bring no sample at once.
ghost use Rattle.std.specs.Prelude.{◌≡◌, ◌+◌, min};
ghost use Rattle.steps.specs.Iterate.{iterate};
ghost use Rattle.sci.specs.model.Control.{bits_of};
ghost use Rattle.sci.specs.model.Serial.{clocked};
ghost use Rattle.sci.specs.quick.Quiet.{until_due, quiet, skipped, sender_rests, receiver_rests, rests, shortened};

use crate::control;
use crate::flags::Flags;
use crate::receiver::Receiver;
use crate::serial::Sci;
use crate::status::Status;
use crate::transmitter::Transmitter;

// With no more clocks left, rest is looked for after a hold's first sample only: looking costs more than playing them.
const LONG: u32 = 4096;

impl Transmitter {
    // The shifter is free and empty, and nothing waits for it.
    fn rests(self, s: Status, sccr1: u16) -> bool
        ensures { result ≡ sender_rests self s sccr1 }
    {
        (self.left == 0)
            & (self.shift == 0)
            & !(control::te(sccr1) & (self.preamble | !s.has(Flags::TDRE)))
    }
}

impl Receiver {
    // It searches, its last three samples are the level of the line, and its idle count goes no further.
    fn rests(self, m: bool, x: bool) -> bool
        ensures { result ≡ receiver_rests x self (bits_of m) }
    {
        let framer = self.framer;
        if x {
            !framer.framing
                & self.last1
                & self.last2
                & self.last3
                & (self.idle == control::frame_samples(m))
        } else {
            !framer.framing & !self.last1 & !self.last2 & !self.last3 & (self.idle == 0)
        }
    }
}

impl Sci {
    // Clocks before the next sample, of a prescaler that runs.
    fn until_due(self) -> u32
        ensures { result ≡ until_due self }
    {
        let period = 2 * (control::scbr(self.sccr0) as u32);
        if period == 0 {
            u32::MAX
        } else {
            (period - 1).saturating_sub(self.prescaler as u32)
        }
    }

    // Clocks that change nothing but the prescaler's count, as far as a hold can go.
    // Ruled out: the clock of a sample counted; a prescaler that stands still taken for one that runs.
    pub fn quiet(self) -> u32
        ensures { result ≡ quiet self }
    {
        if self.active() {
            self.until_due()
        } else {
            u32::MAX
        }
    }

    // k such clocks.
    // Ruled out: a count with the prescaler at rest; one that passes 65,535.
    #[tactic(auto, unfolding(crate::specs::quick::Quiet::skipped))]
    pub fn skipped(mut self, k: u32) -> Sci
        ensures { result ≡ skipped k self }
    {
        if self.active() {
            self.prescaler = up_to(self.prescaler, k);
            self
        } else {
            self
        }
    }

    // Samples come, and change nothing.
    // Ruled out: a word that waits; an idle count short of its limit.
    pub fn rests(self, x: bool) -> bool
        ensures { result ≡ rests self x }
    {
        let receiver = self.receiver;
        let transmitter = self.transmitter;
        let re = control::re(self.sccr1);
        if re & !receiver.rests(control::m(self.sccr1), x) {
            return false;
        }
        transmitter.rests(self.status, self.sccr1)
            & (re | control::te(self.sccr1))
            & (control::scbr(self.sccr0) != 0)
    }

    // As many clocks as leave the same as n, from a sample on: at rest the prescaler's whole rounds leave nothing.
    fn shortened(self, n: u32, x: bool) -> u32
        ensures { result ≡ shortened self n x }
    {
        if self.rests(x) {
            n % (2 * (control::scbr(self.sccr0) as u32))
        } else {
            n
        }
    }

    // n clocks at one level of RXD. The clock after the quiet ones brings a sample, which restarts the count. Rest is looked for after the first
    // sample, and after each one while many clocks are left: a line at one level comes to rest after what is under way, what waits and an idle
    // line, so samples beyond those are played in the last LONG clocks at most.
    // Ruled out: only the first clock played; one clock too many.
    pub fn clocks(self, n: u32, x: bool) -> Sci
        ensures { result ≡ iterate n (λ s. clocked s x) self }
    {
        let mut s = self;
        let mut left = n;
        let mut k = s.quiet();
        let mut first = true;
        while k < left {
            s = s.sample(x);
            left -= k + 1;
            if first | (LONG < left) {
                left = s.shortened(left, x);
            }
            first = false;
            k = s.quiet();
        }
        s.skipped(left)
    }
}

// k clocks more; the count stops at its largest value.
fn up_to(n: u16, k: u32) -> u16
    ensures { result ≡ min 65535 (n + k) }
{
    (n as u32).saturating_add(k).min(65535) as u16
}
