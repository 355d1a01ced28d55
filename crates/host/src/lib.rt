// A module that a host keeps and changes in place: each entry gives a copy of the state to the step by value and stores the result. `noise`, `taken` and
// `lost` only look.
#![tactic(auto)]

ghost use Rattle.std.specs.Prelude.{◌≡◌};
ghost use Rattle.qsm.specs.model.Event.{answered, resets};
ghost use Rattle.qsm.specs.declared.event.Event.TheVariants.{Reset, Hold};
ghost use Rattle.host.specs.Host.{Applied, read_event, write_event};

use qsm::event::{Answer, Event, Stepped};
use qsm::state::Module;

// A step on the module.
fn applied<F: FnOnce(Module) -> Stepped>(m: &mut Module, step: F) -> Answer
    requires { F.pre step m.now }
    ensures { F.post step m.old (record { state = m.new; answer = result }) }
{
    let s = *m;
    let r = step(s);
    *m = r.state;
    r.answer
}

// An event on the module.
// Ruled out: the module kept as it was; the answer of the event before.
pub fn apply(m: &mut Module, e: Event) -> Answer
    ensures { Applied m.old e m.new result }
{
    applied(m, |s| qsm::event::step(s, e))
}

// A reset by value, of whatever module.
// Ruled out: a module that keeps a register; one that keeps a half.
pub fn restart(_m: Module) -> Stepped
    ensures { result ≡ answered resets }
{
    qsm::event::reset()
}

// Ruled out: a module that keeps a register; no answer to a reset.
#[tactic(auto, unfolding(qsm::specs::model::Event::step, qsm::specs::model::Event::does))]
pub fn reset(m: &mut Module) -> Answer
    ensures { Applied m.old Reset m.new result }
{
    applied(m, |s| restart(s))
}

// Ruled out: the clocks of the hold before; the module from before the hold's clocks.
#[tactic(auto, unfolding(qsm::specs::model::Event::step, qsm::specs::model::Event::does))]
pub fn hold(m: &mut Module, pins: u8, rxd: bool, clocks: u32) -> Answer
    ensures { Applied m.old (Hold pins rxd clocks) m.new result }
{
    applied(m, |s| qsm::event::hold(s, pins, rxd, clocks))
}

// Ruled out: a read that leaves a flag which reading clears; one that is always a supervisor's.
#[tactic(auto, unfolding(qsm::specs::model::Event::step, qsm::specs::model::Event::does))]
pub fn read(m: &mut Module, supervisor: bool, width: u8, offset: u16) -> Answer
    ensures { Applied m.old (read_event supervisor width offset) m.new result }
{
    applied(m, |s| qsm::event::read(s, supervisor, width, offset))
}

// Ruled out: a write that is answered and not stored; a refused write that leaves its first half.
#[tactic(auto, unfolding(qsm::specs::model::Event::step, qsm::specs::model::Event::does))]
pub fn write(m: &mut Module, supervisor: bool, width: u8, offset: u16, value: u32) -> Answer
    ensures { Applied m.old (write_event supervisor width offset value) m.new result }
{
    applied(
        m,
        |s| qsm::event::write(s, supervisor, width, offset, value),
    )
}

// The noise figure of the word in SCDR, of a module that is only looked at.
// Ruled out: that of the frame under way; one for any figure above 0.
pub fn noise(m: &Module) -> u8
    ensures { result ≡ m.now.sci.receiver.noise }
{
    let s = *m;
    s.noise()
}

// Frames taken since the last reset, of a module that is only looked at.
// Ruled out: only those that entered SCDR; those lost.
pub fn taken(m: &Module) -> u32
    ensures { result ≡ m.now.sci.account.taken }
{
    let s = *m;
    s.taken()
}

// Frames lost since the last reset, of a module that is only looked at.
// Ruled out: rises of OR; frames taken.
pub fn lost(m: &Module) -> u32
    ensures { result ≡ m.now.sci.account.lost }
{
    let s = *m;
    s.lost()
}
