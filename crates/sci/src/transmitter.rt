// The transmitter: one sample at a time, with the flags that it raises.
ghost use Rattle.std.specs.Prelude.{◌≡◌, cond};
ghost use Rattle.sci.specs.model.Control.{bits_of, M, PE, PT};
ghost use Rattle.sci.specs.quick.Plain.{turns, shifted};
ghost use Rattle.sci.specs.model.Transmitter.{runs, level, with_parity, data_sent, frame_bits, preamble_bits, new_left, passed, ends, free, begins_preamble, begins_frame, sent};

use crate::bits::parity_bit;
use crate::control;
use crate::flags::Flags;
use crate::status::Status;
use steps::choose;

#[repr(C)]
#[derive(Clone, Copy)]
pub struct Transmitter {
    // A preamble is queued.
    pub preamble: bool,
    // The samples that are left of the frame or preamble that runs, none where the shifter is free, and its bits, the one on TXD lowest.
    pub left: u8,
    pub shift: u16,
    // SCDR as it is written: the data register, nine bits.
    pub scdr: u16,
}

// The transmitter and the status flags after a sample.
#[derive(Clone, Copy)]
pub struct Sent {
    pub transmitter: Transmitter,
    pub status: Status,
}

// PE replaces the top data bit.
fn with_parity(m: bool, pt: bool, w: u16) -> u16
    ensures { result ≡ with_parity (bits_of m) pt w }
{
    if m {
        if parity_bit(pt, w % 256) {
            w % 256 + 256
        } else {
            w % 256
        }
    } else {
        if parity_bit(pt, w % 128) {
            w % 128 + 128
        } else {
            w % 128
        }
    }
}

// The data bits as they are sent.
fn data_sent(sccr1: u16, w: u16) -> u16
    ensures { result ≡ data_sent (bits_of (M sccr1)) (PE sccr1) (PT sccr1) w }
{
    if control::pe(sccr1) {
        with_parity(control::m(sccr1), control::pt(sccr1), w)
    } else {
        w
    }
}

// A frame: start bit, data bits, stop bit, low bit first.
fn frame_bits(m: bool, w: u16) -> u16
    ensures { result ≡ frame_bits (bits_of m) w }
{
    if m {
        1024 + 2 * (w % 512)
    } else {
        512 + 2 * (w % 256)
    }
}

// 10 or 11 ones.
fn preamble_bits(m: bool) -> u16
    ensures { result ≡ preamble_bits (bits_of m) }
{
    choose(m, 2047, 1023)
}

fn new_left(begins: bool, m: bool, left: u8) -> u8
    ensures { result ≡ new_left begins (bits_of m) left }
{
    if begins {
        control::frame_samples(m)
    } else {
        left.saturating_sub(1)
    }
}

// The bit on TXD gives way to the next one when its 16 samples are over.
fn passed(over: bool, shift: u16) -> u16
    ensures { result ≡ passed over shift }
{
    choose(over, shift / 2, shift)
}

// The bits of the data w, where a frame begins.
fn framed(frame: bool, sccr1: u16, w: u16, rest: u16) -> u16
    ensures { result ≡ cond frame (frame_bits (bits_of (M sccr1)) (data_sent (bits_of (M sccr1)) (PE sccr1) (PT sccr1) w)) rest }
{
    if frame {
        frame_bits(control::m(sccr1), data_sent(sccr1, w))
    } else {
        rest
    }
}

fn new_shift(preamble: bool, m: bool, bits: u16) -> u16
    ensures { result ≡ cond preamble (preamble_bits (bits_of m)) bits }
{
    choose(preamble, preamble_bits(m), bits)
}

impl Transmitter {
    // A frame or preamble runs.
    // Ruled out: never; also after its last sample.
    pub fn runs(self) -> bool
        ensures { result ≡ runs self }
    {
        self.left != 0
    }

    // The level that the transmitter gives TXD: it rests at one.
    // Ruled out: a rest at zero; the highest bit first.
    pub fn level(self) -> bool
        ensures { result ≡ level self }
    {
        !self.runs() | (self.shift % 2 == 1)
    }

    // Whether a frame or preamble ends or begins with a sample.
    fn turns(self, s: Status, sccr1: u16) -> bool
        ensures { result ≡ turns self s sccr1 }
    {
        let free = control::te(sccr1) & (self.left <= 1);
        let frame = free & !self.preamble & !s.has(Flags::TDRE);
        (self.left == 1) | (free & self.preamble) | frame
    }

    // A sample at which none does.
    #[tactic(auto, unfolding(crate::specs::quick::Plain::shifted))]
    fn shifted(mut self) -> Transmitter
        ensures { result ≡ shifted self }
    {
        self.left = self.left.saturating_sub(1);
        self.shift = passed(self.left % 16 == 0, self.shift);
        self
    }

    // Any sample.
    fn turned(self, s: Status, sccr1: u16) -> Sent
        ensures { result ≡ sent self s sccr1 }
    {
        let m = control::m(sccr1);
        let empty = s.has(Flags::TDRE);
        let free = control::te(sccr1) & (self.left <= 1);
        let preamble = free & self.preamble;
        let frame = free & !self.preamble & !empty;
        let left = new_left(preamble | frame, m, self.left);
        let rest = passed(left % 16 == 0, self.shift);
        let ended = s.raise_if((self.left == 1) & empty, Flags::TC);
        Sent {
            transmitter: Transmitter {
                scdr: self.scdr,
                preamble: self.preamble & !preamble,
                shift: new_shift(preamble, m, framed(frame, sccr1, self.scdr, rest)),
                left,
            },
            status: ended.raise_if(frame, Flags::TDRE),
        }
    }

    // One sample: what runs ends; what waits begins, a preamble before data.
    // Ruled out: TDRE not raised at a frame's start; data sent before the preamble.
    pub fn sample(self, s: Status, sccr1: u16) -> Sent
        ensures { result ≡ sent self s sccr1 }
    {
        if self.turns(s, sccr1) {
            self.turned(s, sccr1)
        } else {
            Sent {
                transmitter: self.shifted(),
                status: s,
            }
        }
    }
}
