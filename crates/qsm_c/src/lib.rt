// The C boundary: a module behind a pointer, which the host keeps, the playing of a trace, the comparing of two logs, the keeping of
// editions, plans of the queue, and (`shared`) a module that two drivers share. `include/qsm.h` declares it.
#![tactic(auto)]

ghost use Rattle.std.specs.Prelude.{◌≡◌, length};
ghost use Rattle.qsm.specs.model.State.{reset_module};
ghost use Rattle.qsm.specs.declared.event.Event.TheVariants.{Reset, Hold};
ghost use Rattle.host.specs.Host.{Applied, read_event, write_event};
ghost use Rattle.trace.specs.Play.{play};
ghost use Rattle.tool_compare.specs.Compare.{compared_logs, in_numbers};
ghost use Rattle.tool_plan.specs.Check.{accepts};
ghost use Rattle.tool_plan.specs.Quickest.{answered, planned};
ghost use Rattle.tool_plan.specs.Writes.{write_no, writes_of};
ghost use Rattle.tool_editions.specs.Editions.{add, withdraw, get, newest, Changes};
ghost use Rattle.qsm_c.specs.Play.{Plays};
ghost use Rattle.qsm_c.specs.Version.{version};

mod account;
mod index;
mod judge;
mod lines;
mod shared;
mod until;

use qsm::event::Answer;
use qsm::state::Module;
use tool_compare::Compared;
use tool_editions::records::Edition;
use tool_editions::{Changed, Given};
use tool_plan::load::HostWrite;
use tool_plan::{Plan, Planned, SetPoints};

// The module after a trace, the bytes read and written, and the refusal that stopped it, or 0.
#[repr(C)]
#[derive(Clone, Copy)]
pub struct Played {
    pub state: Module,
    pub read: usize,
    pub written: usize,
    pub stop: u8,
}

// The version of the struct of a module, which a saved one belongs to: one more with each change of its fields. `QSM_VERSION` in the header is
// the version that a host was compiled with.
const VERSION: u32 = 5;

// Ruled out: the number of an earlier struct; one that changes between calls.
#[unsafe(no_mangle)]
pub extern "C" fn qsm_version() -> u32
    ensures { result ≡ version }
{
    VERSION
}

// A module after a reset.
// Ruled out: SUPV clear; QIVR 00; clocks counted before it.
#[unsafe(no_mangle)]
pub extern "C" fn qsm_new() -> Module
    ensures { result ≡ reset_module }
{
    Module::reset()
}

// Ruled out: a module that keeps a register; no answer to a reset.
#[tactic(auto, unfolding(qsm::specs::model::Event::step, qsm::specs::model::Event::does))]
#[unsafe(no_mangle)]
pub extern "C" fn qsm_reset(m: &mut Module) -> Answer
    ensures { Applied m.old Reset m.new result }
{
    let s = *m;
    let r = host::restart(s);
    *m = r.state;
    r.answer
}

// Ruled out: the levels of the hold before; only the first clock played; a count that passes 2^64 - 1.
#[tactic(auto, unfolding(qsm::specs::model::Event::step, qsm::specs::model::Event::does))]
#[unsafe(no_mangle)]
pub extern "C" fn qsm_hold(m: &mut Module, pins: u8, rxd: bool, clocks: u32) -> Answer
    ensures { Applied m.old (Hold pins rxd clocks) m.new result }
{
    let s = *m;
    let r = qsm::event::hold(s, pins, rxd, clocks);
    *m = r.state;
    r.answer
}

// Ruled out: every read answered 0; a blocked user's read with a side effect.
#[tactic(auto, unfolding(qsm::specs::model::Event::step, qsm::specs::model::Event::does))]
#[unsafe(no_mangle)]
pub extern "C" fn qsm_read(m: &mut Module, supervisor: bool, width: u8, offset: u16) -> Answer
    ensures { Applied m.old (read_event supervisor width offset) m.new result }
{
    let s = *m;
    let r = qsm::event::read(s, supervisor, width, offset);
    *m = r.state;
    r.answer
}

// Ruled out: every write refused; a write that is answered and not stored.
#[tactic(auto, unfolding(qsm::specs::model::Event::step, qsm::specs::model::Event::does))]
#[unsafe(no_mangle)]
pub extern "C" fn qsm_write(
    m: &mut Module,
    supervisor: bool,
    width: u8,
    offset: u16,
    value: u32,
) -> Answer
    ensures { Applied m.old (write_event supervisor width offset value) m.new result }
{
    let s = *m;
    let r = qsm::event::write(s, supervisor, width, offset, value);
    *m = r.state;
    r.answer
}

// The noise figure of the word in SCDR, of a module that is only looked at.
// Ruled out: that of the frame under way; one for any figure above 0.
#[unsafe(no_mangle)]
pub extern "C" fn qsm_noise(m: &Module) -> u8
    ensures { result ≡ m.now.sci.receiver.noise }
{
    let s = *m;
    s.noise()
}

// A trace, played on m into a log.
// Ruled out: bytes read that count the record refused; a log changed past its answers.
#[unsafe(no_mangle)]
pub extern "C" fn qsm_play(m: Module, trace: &[u8], log: &mut [u8]) -> Played
    ensures { Plays (play m trace.now (length log.old)) log.old result log.new }
{
    let p = trace::play(m, trace, log);
    Played {
        state: p.state,
        read: p.read,
        written: p.written,
        stop: trace::stop_number(p.stop),
    }
}

// Two logs of either kind, compared into a list.
// Ruled out: a list changed by a refusal; the logs exchanged, which would name the wrong one.
#[unsafe(no_mangle)]
pub extern "C" fn qsm_compare<'a>(a: &'a [u8], b: &'a [u8], list: &mut [u64]) -> Compared
    ensures { (list.new ≡ (compared_logs a.now b.now list.old).list) × (result ≡ in_numbers (compared_logs a.now b.now list.old)) }
{
    tool_compare::compare_numbers(a, b, list)
}

// An edition added to a buffer.
// Ruled out: a buffer changed by a refusal; a used length that leaves the new record out.
#[unsafe(no_mangle)]
pub extern "C" fn qsm_editions_add(buffer: &mut [u8], used: usize, edition: Edition) -> Changed
    ensures { Changes (add buffer.old used edition) result buffer.new }
{
    tool_editions::add(buffer, used, edition)
}

// An edition withdrawn.
// Ruled out: an edition withdrawn twice; its record taken out of the buffer.
#[unsafe(no_mangle)]
pub extern "C" fn qsm_editions_withdraw(buffer: &mut [u8], used: usize, number: u16) -> Changed
    ensures { Changes (withdraw buffer.old used number) result buffer.new }
{
    tool_editions::withdraw(buffer, used, number)
}

// The edition of a number.
// Ruled out: a withdrawn edition given; the newest one for any number.
#[unsafe(no_mangle)]
pub extern "C" fn qsm_editions_get(buffer: &[u8], used: usize, number: u16) -> Given
    ensures { result ≡ get buffer.now used number }
{
    tool_editions::get(buffer, used, number)
}

// The newest edition.
// Ruled out: the last one added, though withdrawn; the first one.
#[unsafe(no_mangle)]
pub extern "C" fn qsm_editions_newest(buffer: &[u8], used: usize) -> Given
    ensures { result ≡ newest buffer.now used }
{
    tool_editions::newest(buffer, used)
}

// The quickest plan for set-points in a window, or refusal 11.
// Ruled out: a refusal where some plan is accepted; a plan past the window.
#[unsafe(no_mangle)]
pub extern "C" fn qsm_plan(points: SetPoints, window: u64) -> Planned
    ensures { result ≡ answered (planned points window) }
{
    Planned::from(tool_plan::quickest::plan(points, window))
}

// Whether a plan is one for set-points and a window, whoever made it.
// Ruled out: a word out of order accepted; a clock that isn't the last edge's accepted.
#[unsafe(no_mangle)]
pub extern "C" fn qsm_plan_accepts(points: SetPoints, window: u64, plan: Plan) -> bool
    ensures { result ≡ accepts points window plan }
{
    tool_plan::accepts(points, window, plan)
}

// How many writes load a plan.
// Ruled out: SPCR1 left out; two for each of sixteen entries whatever the plan has.
#[unsafe(no_mangle)]
pub extern "C" fn qsm_plan_writes(plan: Plan) -> u16
    ensures { result ≡ writes_of plan }
{
    tool_plan::load::writes(plan)
}

// Write number i of them, in order, SPCR1 last; width 0 past it.
// Ruled out: SPCR1 before the last entry; the pointers of the plan's own SPCR2.
#[tactic(auto, unfolding(tool_plan::specs::Writes::write_no))]
#[unsafe(no_mangle)]
pub extern "C" fn qsm_plan_write(plan: Plan, i: u16) -> HostWrite
    ensures { result ≡ write_no plan i }
{
    tool_plan::load::write(plan, i).unwrap_or(HostWrite::NONE)
}
