// The receiver: one sample of RXD at a time, with the flags that it raises.
ghost use Rattle.std.specs.Prelude.{◌≡◌, ◌&&◌};
ghost use Rattle.sci.specs.model.Bits.{parity_bit};
ghost use Rattle.sci.specs.model.Control.{bits_of};
ghost use Rattle.sci.specs.quick.Plain.{plain, passed};
ghost use Rattle.sci.specs.model.Receiver.{start_state, three, full, raised, entered, status_after, idle_count, takes, reaches, outcome, receiver_after, received};

use crate::bits::parity_bit;
use crate::flags::Flags;
use crate::framer::{Frame, Framer};
use crate::status::Status;
use crate::{control, framer};
use steps::choose;

#[repr(C)]
#[derive(Clone, Copy)]
pub struct Receiver {
    pub framer: Framer,
    // SCDR as it is read, the noise figure of its word, and whether a frame has entered it since the idle count last got to its limit.
    pub scdr: u16,
    pub noise: u8,
    pub since: bool,
    // The last three samples since RE rose, latest first.
    pub last1: bool,
    pub last2: bool,
    pub last3: bool,
    // Consecutive ones, up to a frame's samples.
    pub idle: u8,
    // RWU.
    pub asleep: bool,
}

// What a sample makes happen: a start bit begun or abandoned; a frame taken, which may be lost; one more sample of an idle line, and the
// idle count at its limit.
#[derive(Clone, Copy)]
pub struct Outcome {
    pub begun: bool,
    pub abandoned: bool,
    pub taken: bool,
    pub lost: bool,
    pub counted: bool,
    pub reached: bool,
}

// The receiver and the status flags after a sample.
#[derive(Clone, Copy)]
pub struct Received {
    pub receiver: Receiver,
    pub status: Status,
}

// Whether SCDR can't take a frame.
fn full(s: Status) -> bool
    ensures { result ≡ full s }
{
    s.has(Flags::RDRF) | s.has(Flags::OR)
}

// The flags that come with a frame that enters SCDR.
fn raised(s: Status, f: Frame, bad: bool) -> Status
    ensures { result ≡ raised s f bad }
{
    let full = s.raise(Flags::RDRF);
    let noisy = full.raise_if(0 < f.noise, Flags::NF);
    let broken = noisy.raise_if(!f.stop, Flags::FE);
    broken.raise_if(bad, Flags::PF)
}

fn entered(s: Status, enters: bool, f: Frame, bad: bool) -> Status
    ensures { result ≡ entered enters s f bad }
{
    if enters { raised(s, f, bad) } else { s }
}

fn status_after(s: Status, o: Outcome, f: Frame, bad: bool, idles: bool) -> Status
    ensures { result ≡ status_after s o f bad idles }
{
    let lost = s.raise_if(o.lost, Flags::OR);
    let taken = entered(lost, o.taken & !o.lost, f, bad);
    let active = taken.raise_if(o.begun, Flags::RAF);
    let quiet = active.fall_if(o.abandoned | o.reached, Flags::RAF);
    quiet.raise_if(idles, Flags::IDLE)
}

// Wrong parity, where it is asked for: of a frame that is taken, with PE.
fn wrong_parity(asked: bool, pt: bool, w: u16) -> bool
    ensures { result ≡ (asked && parity_bit pt w) }
{
    asked && parity_bit(pt, w)
}

fn idle_count(counted: bool, idle: u8, limit: u8) -> u8
    ensures { result ≡ idle_count counted idle limit }
{
    if counted {
        idle.saturating_add(1).min(limit)
    } else {
        0
    }
}

impl Receiver {
    // RE clear: searching, no ones seen, count 0, no frame since. RWU, SCDR and its noise figure stay.
    // Ruled out: SCDR cleared; the idle count kept.
    pub fn start_state(self) -> Receiver
        ensures { result ≡ start_state self }
    {
        Receiver {
            framer: Framer::searching(),
            last1: false,
            last2: false,
            last3: false,
            idle: 0,
            since: false,
            asleep: self.asleep,
            scdr: self.scdr,
            noise: self.noise,
        }
    }

    fn three(self) -> bool
        ensures { result ≡ three self }
    {
        self.last1 & self.last2 & self.last3
    }

    // Whether a frame that ends is taken: awake, or woken by its address bit.
    fn takes(self, sccr1: u16, word: u16) -> bool
        ensures { result ≡ takes self sccr1 word }
    {
        !self.asleep | (control::wake(sccr1) & framer::last_bit(control::m(sccr1), word))
    }

    fn reaches(self, m: bool) -> bool
        ensures { result ≡ reaches self (bits_of m) }
    {
        (self.idle as u16) + 1 == (control::frame_samples(m) as u16)
    }

    // What a sample makes happen, under the settings of SCCR1.
    // Ruled out: a frame let in while OR is set; idle one sample early.
    pub fn outcome(self, s: Status, sccr1: u16, x: bool) -> Outcome
        ensures { result ≡ outcome self s sccr1 x }
    {
        let framer = self.framer;
        let ended = framer.ends();
        let taken = ended & self.takes(sccr1, framer.shift);
        let counted = x & !(ended & control::ilt(sccr1));
        Outcome {
            begun: framer.begins(self.three(), x),
            abandoned: framer.abandons(x),
            taken,
            lost: taken & full(s),
            counted,
            reached: counted & self.reaches(control::m(sccr1)),
        }
    }

    #[tactic(auto, unfolding(crate::specs::model::Receiver::receiver_after))]
    fn after(self, o: Outcome, sccr1: u16, x: bool) -> Receiver
        ensures { result ≡ receiver_after self o sccr1 x }
    {
        let framer = self.framer;
        let frame = framer.frame(x);
        let m = control::m(sccr1);
        let enters = o.taken & !o.lost;
        Receiver {
            framer: framer.framed(self.three(), x, m),
            last1: x,
            last2: self.last1,
            last3: self.last2,
            idle: idle_count(o.counted, self.idle, control::frame_samples(m)),
            since: !o.reached & (enters | self.since),
            asleep: self.asleep & !o.taken & !(o.reached & !control::wake(sccr1)),
            scdr: choose(enters, framer.shift, self.scdr),
            noise: choose(enters, frame.noise, self.noise),
        }
    }

    // Whether a sample changes nothing but RT, the last samples and the idle count, which does not get to its limit.
    fn plain(self, m: bool, x: bool) -> bool
        ensures { result ≡ plain self (bits_of m) x }
    {
        let framer = self.framer;
        framer.rests(self.three(), x) & !(x & self.reaches(m))
    }

    // Such a sample.
    fn passed(mut self, m: bool, x: bool) -> Receiver
        ensures { result ≡ passed self (bits_of m) x }
    {
        let framer = self.framer;
        self.framer = framer.rested();
        self.last3 = self.last2;
        self.last2 = self.last1;
        self.last1 = x;
        self.idle = idle_count(x, self.idle, control::frame_samples(m));
        self
    }

    // Any sample.
    fn turned(self, s: Status, sccr1: u16, x: bool) -> Received
        ensures { result ≡ received self s sccr1 x }
    {
        let framer = self.framer;
        let o = self.outcome(s, sccr1, x);
        let bad = wrong_parity(
            o.taken & control::pe(sccr1),
            control::pt(sccr1),
            framer.shift,
        );
        let idles = o.reached & !self.asleep & self.since;
        Received {
            receiver: self.after(o, sccr1, x),
            status: status_after(s, o, framer.frame(x), bad, idles),
        }
    }

    // One sample; most are plain.
    // Ruled out: a lost frame that overwrites SCDR; a frame that enters while the receiver sleeps.
    pub fn sample(self, s: Status, sccr1: u16, x: bool) -> Received
        ensures { result ≡ received self s sccr1 x }
    {
        let m = control::m(sccr1);
        if self.plain(m, x) {
            Received {
                receiver: self.passed(m, x),
                status: s,
            }
        } else {
            self.turned(s, sccr1, x)
        }
    }
}
