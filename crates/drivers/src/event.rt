// Events of the host and of the two drivers, refusal 9, and the step (02, L11).
ghost use Rattle.std.specs.Prelude.{◌≡◌};
ghost use Rattle.qspi.specs.model.Outputs.{enabled};
ghost use Rattle.qsm.specs.model.Event.{answer_of};
ghost use Rattle.drivers.specs.Event.{told, played, with_split, with_holder, fixed, restarted, refuses, does, step};

use crate::reach::admits;
use crate::state::{Driver, Shared, other, proper};
use qsm::event::{Access, Answer};
use qsm::state::Module;

// Of the host: a reset that names s, a hold of pin levels, an RXD level and so many clocks, an access. Of a driver: an access, a claim, a
// release.
#[derive(Clone, Copy)]
pub enum Event {
    Reset(u8),
    Hold(u8, bool, u32),
    Access(Access),
    Drive(Driver, Access),
    Claim(Driver),
    Release(Driver),
}

#[derive(Clone, Copy)]
pub struct Stepped {
    pub state: Shared,
    pub answer: Answer,
}

// The answer of a module to which nothing happens. (A read of no bytes is refused 1 and leaves it as it was.)
fn answer(m: Module, refusal: u8) -> Answer
    ensures { result ≡ answer_of m refusal 0 }
{
    let r = qsm::event::step(m, qsm::event::Event::Access(Access::Read(true, 0, 0)));
    let mut a = r.answer;
    a.refusal = refusal;
    a
}

impl Shared {
    fn told(self, refusal: u8) -> Stepped
        ensures { result ≡ told self refusal }
    {
        Stepped {
            state: self,
            answer: answer(self.qsm, refusal),
        }
    }

    fn with_holder(mut self, holder: u8) -> Shared
        ensures { result ≡ with_holder self holder }
    {
        self.holder = holder;
        self
    }

    // An event of the module, played by it.
    fn played(mut self, e: qsm::event::Event) -> Stepped
        ensures { result ≡ played self e }
    {
        let m = self.qsm;
        let r = qsm::event::step(m, e);
        let next = r.state;
        let answer = r.answer;
        self.qsm = next;
        Stepped {
            state: self,
            answer,
        }
    }

    fn with_split(mut self, split: u8) -> Shared
        ensures { result ≡ with_split self split }
    {
        self.split = split;
        self
    }

    // The first reset fixes s.
    fn fixed(self, split: u8) -> Shared
        ensures { result ≡ fixed self split }
    {
        if self.begun() {
            self
        } else {
            self.with_split(split)
        }
    }

    fn restarted(self, split: u8) -> Stepped
        ensures { result ≡ restarted self split }
    {
        self.fixed(split)
            .with_holder(0)
            .played(qsm::event::Event::Reset)
    }

    // SPE is set.
    fn on(self) -> bool
        ensures { result ≡ enabled self.qsm.qspi }
    {
        let qspi = self.qsm.qspi;
        qspi.enabled()
    }

    // Refusal 9.
    // Ruled out: a release with SPE set; an access refused 9 before 2.
    #[tactic(auto, unfolding(crate::specs::Event::refuses))]
    pub fn refuses(self, e: Event) -> bool
        ensures { result ≡ refuses self e }
    {
        match e {
            Event::Reset(split) => !self.begun() & !proper(split),
            Event::Hold(_, _, _) | Event::Access(_) => false,
            Event::Drive(who, a) => admits(self.qsm, a) & !self.allows(who, a),
            Event::Claim(who) => !self.begun() | self.holds(other(who)),
            Event::Release(who) => (!self.begun() | !self.holds(who)) | self.on(),
        }
    }

    #[tactic(auto, unfolding(crate::specs::Event::does))]
    fn does(self, e: Event) -> Stepped
        ensures { result ≡ does self e }
    {
        match e {
            Event::Reset(split) => self.restarted(split),
            Event::Hold(pins, rxd, clocks) => self.played(qsm::event::Event::Hold(
                pins, rxd, clocks,
            )),
            Event::Access(a) | Event::Drive(_, a) => self.played(qsm::event::Event::Access(a)),
            Event::Claim(who) => self.with_holder(u8::from(who)).told(0),
            Event::Release(_) => self.with_holder(0).told(0),
        }
    }
}

// The step from one event to the next.
// Ruled out: a claim that outlives a reset; a refused event that leaves its trace.
pub fn step(d: Shared, e: Event) -> Stepped
    ensures { result ≡ step d e }
{
    if d.refuses(e) { d.told(9) } else { d.does(e) }
}
