// Where the receiver stands in a frame: how a frame begins and ends, and what one sample makes of it.
ghost use Rattle.std.specs.Prelude.{◌≡◌};
ghost use Rattle.sci.specs.model.Control.{bits_of};
ghost use Rattle.sci.specs.quick.Plain.{busy, rests, rested};
ghost use Rattle.sci.specs.model.Framer.{searching, begun, begins, abandons, ends, frame_of, searched, fixed, last_bit, framed};

use crate::bits::vote;
use crate::control::bits_of;

#[repr(C)]
#[derive(Clone, Copy)]
pub struct Framer {
    // A frame is being received; its start bit; else the data bits that are left, this one included, and none in the stop bit.
    pub framing: bool,
    pub starting: bool,
    pub left: u8,
    // The last RT taken of this bit.
    pub rt: u8,
    // The first two samples of a vote.
    pub first: bool,
    pub second: bool,
    // The noise figure so far: it stops at 255, which no frame's gets to.
    pub noise: u8,
    // An adjustment has set RT1 of this bit.
    pub moved: bool,
    pub shift: u16,
}

// What a frame brings at its end: its word, its noise figure, and the stop bit.
#[derive(Clone, Copy)]
pub struct Frame {
    pub word: u16,
    pub noise: u8,
    pub stop: bool,
}

impl Framer {
    // Ruled out: a frame under way; noise kept from an abandoned start.
    pub fn searching() -> Framer
        ensures { result ≡ searching }
    {
        Framer {
            framing: false,
            starting: false,
            left: 0,
            rt: 0,
            first: false,
            second: false,
            noise: 0,
            moved: false,
            shift: 0,
        }
    }

    // RT1 of the start bit of a frame of n data bits.
    fn begun(n: u8) -> Framer
        ensures { result ≡ begun n }
    {
        Framer {
            framing: true,
            starting: true,
            left: n,
            rt: 1,
            first: false,
            second: false,
            noise: 0,
            moved: false,
            shift: 0,
        }
    }

    // Whether a sample is RT1 of a start bit; `three` says whether the three samples before it are ones.
    // Ruled out: a start after two ones; a start inside a frame.
    pub fn begins(self, three: bool, x: bool) -> bool
        ensures { result ≡ begins self three x }
    {
        !self.framing & three & !x
    }

    // Whether a sample is RT7 of a start bit with two or more ones at RT3, RT5 and RT7.
    // Ruled out: a start abandoned for a single one; one kept with ones at RT3 and RT5.
    pub fn abandons(self, x: bool) -> bool
        ensures { result ≡ abandons self x }
    {
        let start = vote(self.first, self.second, x);
        self.framing & self.starting & (self.rt == 6) & start.bit
    }

    // Whether a sample is RT10 of the stop bit.
    // Ruled out: an end at RT16; an end at the last data bit.
    pub fn ends(self) -> bool
        ensures { result ≡ ends self }
    {
        self.framing & !self.starting & (self.left == 0) & (self.rt == 9)
    }

    // What the frame brings, if it ends with this sample.
    // Ruled out: the stop bit left out of the noise; the stop bit as its last sample alone.
    pub fn frame(self, x: bool) -> Frame
        ensures { result ≡ frame_of self x }
    {
        let v = vote(self.first, self.second, x);
        Frame {
            word: self.shift,
            noise: self.noise.saturating_add(v.disagreed),
            stop: v.bit,
        }
    }

    // Whether a sample changes nothing but RT: it is no zero after three ones, and in a frame its RT is none at which a bit is sampled, voted
    // on or ended.
    // Ruled out: RT3 of a start bit passed over; a start bit passed over.
    pub fn rests(self, three: bool, x: bool) -> bool
        ensures { result ≡ rests self three x }
    {
        (!three | x) & !(self.framing & busy(self.starting, self.rt))
    }

    // Such a sample.
    // Ruled out: RT that stands still in a frame; RT that runs without a frame.
    pub fn rested(mut self) -> Framer
        ensures { result ≡ rested self }
    {
        if self.framing {
            self.rt = self.rt % 16 + 1;
            self
        } else {
            self
        }
    }

    fn searched(self, begins: bool, n: u8) -> Framer
        ensures { result ≡ searched begins self n }
    {
        if begins { Framer::begun(n) } else { self }
    }

    // One sample that makes no adjustment. RT16 is followed by RT1 of the next bit.
    // Ruled out: a bit of fifteen samples; a search that goes on only at RT16.
    pub fn fixed(self, three: bool, x: bool, m: bool) -> Framer
        ensures { result ≡ fixed (bits_of m) self three x }
    {
        if self.framing {
            self.in_bit(self.starting, self.left == 0, self.rt % 16 + 1, x, m)
        } else {
            self.searched(self.begins(three, x), bits_of(m))
        }
    }

    // One sample.
    // Ruled out: sampling points that never move; a move in the stop bit.
    pub fn framed(self, three: bool, x: bool, m: bool) -> Framer
        ensures { result ≡ framed (bits_of m) self three x }
    {
        if self.adjusts(three, x, m) {
            self.adjusted()
        } else {
            self.fixed(three, x, m)
        }
    }
}

// Whether something is done at the RT after this one: RT8 to RT10 and RT16, as the bits 7 to 9 and 15; in a start bit RT3, RT5 and RT7 too,
// as the bits 2, 4 and 6.
fn busy(starting: bool, rt: u8) -> bool
    ensures { result ≡ busy starting rt }
{
    let at: u16 = if starting { 0x83D4 } else { 0x8380 };
    (at >> (rt % 16)) % 2 == 1
}

// The last bit that came in, of the bits collected.
// Ruled out: the lowest bit; bit 8 of a frame of 8 bits.
pub fn last_bit(m: bool, w: u16) -> bool
    ensures { result ≡ last_bit (bits_of m) w }
{
    if m {
        w / 0x100 % 2 == 1
    } else {
        w / 128 % 2 == 1
    }
}
