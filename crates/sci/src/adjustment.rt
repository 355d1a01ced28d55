// The sampling points move: a fall of the line near a bit's border makes the sample that sees it RT1.
ghost use Rattle.std.specs.Prelude.{◌≡◌};
ghost use Rattle.sci.specs.model.Control.{bits_of};
ghost use Rattle.sci.specs.model.Framer.{early_fall, late_fall, adjusts, adjusted};

use crate::framer::{Framer, last_bit};
use steps::choose;

impl Framer {
    // Whether a sample is RT11 to RT16 of a data bit, with another data bit after it.
    fn early_fall(self) -> bool
        ensures { result ≡ early_fall self }
    {
        (11 <= self.rt % 16 + 1) & (1 < self.left)
    }

    // Whether a sample is RT2 to RT7 of a data bit whose RT1 no adjustment has set.
    fn late_fall(self) -> bool
        ensures { result ≡ late_fall self }
    {
        let rt = self.rt % 16 + 1;
        (2 <= rt) & (rt <= 7) & (0 < self.left) & !self.moved
    }

    // Whether a sample makes an adjustment.
    // Ruled out: one after a zero bit; a second one for a bit.
    pub fn adjusts(self, three: bool, x: bool, m: bool) -> bool
        ensures { result ≡ adjusts (bits_of m) self three x }
    {
        !x & three
            & self.framing
            & !self.starting
            & last_bit(m, self.shift)
            & (self.early_fall() | self.late_fall())
    }

    // It becomes RT1 of the next bit, or of the bit that it is in.
    pub(crate) fn adjusted(mut self) -> Framer
        ensures { result ≡ adjusted self }
    {
        self.left = choose(self.early_fall(), self.left.saturating_sub(1), self.left);
        self.rt = 1;
        self.moved = true;
        self
    }
}
