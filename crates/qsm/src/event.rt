// Events, answers and the step: reset, hold, read and write.
ghost use Rattle.std.specs.Prelude.{◌≡◌};
ghost use Rattle.sci.specs.model.Serial as serial;
ghost use Rattle.qspi.specs.model.Outputs as queue;
ghost use Rattle.qsm.specs.model.Pins.{mask, levels};
ghost use Rattle.qsm.specs.model.Request.{request};
ghost use Rattle.qsm.specs.model.Event.{answer_of, answered, resets, holds, reads, writes, step};

use crate::holding::{queue_held, serial_held};
use crate::pins::{Outputs, outputs_of};
use crate::request::{Request, request_of};
use crate::state::Module;

// An access is a read or a write: as supervisor or as user, a width in bytes, an offset from the module's base; and a value to write.
#[derive(Clone, Copy)]
pub enum Access {
    Read(bool, u8, u16),
    Write(bool, u8, u16, u32),
}

// An event is a reset, a hold of pin levels, an RXD level and so many clocks, or an access.
#[derive(Clone, Copy)]
pub enum Event {
    Reset,
    Hold(u8, bool, u32),
    Access(Access),
}

// The refusal's number or 0, the value read, the driven levels and which pins are driven, the request's level and its vector, and the
// clocks since reset.
#[repr(C)]
#[derive(Clone, Copy)]
pub struct Answer {
    pub refusal: u8,
    pub value: u32,
    pub levels: u8,
    pub mask: u8,
    pub level: u8,
    pub vector: u8,
    pub clock: u64,
}

// What an event leaves, before its answer.
#[derive(Clone, Copy)]
pub struct Done {
    pub state: Module,
    pub refusal: u8,
    pub value: u32,
}

#[derive(Clone, Copy)]
pub struct Stepped {
    pub state: Module,
    pub answer: Answer,
}

// The request of both halves.
fn asked_of(m: Module) -> Request
    ensures { result ≡ request (queue.asks m.qspi) (serial.asks m.sci) m.qilr m.qivr }
{
    let sci = m.sci;
    let qspi = m.qspi;
    request_of(qspi.asks(), sci.asks(), m.qilr, m.qivr)
}

fn answer_of(pins: Outputs, asked: Request, clock: u64, refusal: u8, value: u32) -> Answer
    ensures { result ≡ record { refusal = refusal; value = value; levels = levels pins; mask = mask pins; level = asked.level; vector = asked.vector; clock = clock } }
{
    Answer {
        refusal,
        value,
        levels: pins.levels(),
        mask: pins.mask(),
        level: asked.level,
        vector: asked.vector,
        clock,
    }
}

impl Done {
    fn answer(self) -> Answer
        ensures { result ≡ answer_of self.state self.refusal self.value }
    {
        let state = self.state;
        answer_of(
            outputs_of(state),
            asked_of(state),
            state.clock,
            self.refusal,
            self.value,
        )
    }

    fn with(self, answer: Answer) -> Stepped
        ensures { result ≡ record { state = self.state; answer = answer } }
    {
        let state = self.state;
        Stepped { state, answer }
    }
}

// Ruled out: a module that keeps a register; an answer other than that of the module after it.
pub fn reset() -> Stepped
    ensures { result ≡ answered resets }
{
    let d = Module::reset().done(0, 0);
    d.with(d.answer())
}

// Ruled out: only the first clock played; the levels of the hold before it; a count past 2^64 - 1 that begins at 0 again.
pub fn hold(m: Module, pins: u8, rxd: bool, clocks: u32) -> Stepped
    ensures { result ≡ answered (holds m pins rxd clocks) }
{
    let mut state = m;
    let mut refusal = 10;
    if !m.passes(clocks) {
        let levels = qspi::Pins {
            levels: pins,
            pqspar: m.pqspar,
            ddrqs: m.ddrqs,
        };
        refusal = 0;
        state.inputs = pins;
        state.clock += clocks as u64;
        match queue_held(m.qspi, clocks, levels) {
            Some(held) => {
                state.qspi.entry.left = held.left;
                state.qspi.entry.edges = held.edges;
                state.qspi.entry.mosi = held.mosi;
                state.qspi.entry.collected = held.collected;
                state.qspi.entry.selecting = held.selecting;
            }
            None => {
                let qspi = m.qspi;
                let after = qspi.clocks(clocks, levels);
                state.qspi = after;
            }
        }
        match serial_held(m.sci, clocks, rxd) {
            Some(count) => state.sci.prescaler = count,
            None => {
                let sci = m.sci;
                let after = sci.clocks(clocks, rxd);
                state.sci = after;
            }
        }
    }
    let answer = answer_of(outputs_of(state), asked_of(state), state.clock, refusal, 0);
    Stepped { state, answer }
}

// Ruled out: every read answered 0; a blocked user's read with a side effect.
pub fn read(m: Module, supervisor: bool, width: u8, offset: u16) -> Stepped
    ensures { result ≡ answered (reads m supervisor width offset) }
{
    let d = m.polls(supervisor, width, offset);
    let state = d.state;
    let answer = answer_of(
        outputs_of(state),
        asked_of(state),
        state.clock,
        d.refusal,
        d.value,
    );
    Stepped { state, answer }
}

// Ruled out: every write refused; a refused write that leaves its first half.
pub fn write(m: Module, supervisor: bool, width: u8, offset: u16, value: u32) -> Stepped
    ensures { result ≡ answered (writes m supervisor width offset value) }
{
    let d = m.writes(supervisor, width, offset, value);
    d.with(d.answer())
}

// The step from one event to the next.
// Ruled out: events ignored; a hold taken for a reset.
pub fn step(m: Module, e: Event) -> Stepped
    ensures { result ≡ step m e }
{
    let d = m.does(e);
    d.with(d.answer())
}
