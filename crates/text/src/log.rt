// The answer at the start of a rest of a log of either kind.
ghost use Rattle.std.specs.Prelude.{◌≡◌, ◌≤◌, ◌+◌, length};
ghost use Rattle.answers.specs.Answer.{length_of};
ghost use Rattle.trace.specs.Trace.{long_at};
ghost use Rattle.text.specs.Log.{wide, clock_at, nothing, logged_at, tested, foreign_kind, other_kind, entry};

use crate::answer::unnamed;
use crate::message::Fault;
use answers::{
    CLOCK, CLOCKED, KIND, LEVEL, LEVELS, MASK, PLAIN_LENGTH, REFUSAL, VALUE, VECTOR, known_kind,
    length_of,
};
use qsm::event::Answer;

// The lower four bytes of the clock.
const CLOCK_LOW: usize = CLOCK + 4;

// The bytes of an answer in a log, whether the model can have given it or not.
#[derive(Clone, Copy)]
pub struct Logged {
    pub kind: u8,
    pub answer: Answer,
}

fn long_at(rest: &[u8], at: usize) -> u32
    requires { at + 4 ≤ length rest.now }
    ensures { result ≡ long_at rest.now at }
{
    u32::from_be_bytes([rest[at], rest[at + 1], rest[at + 2], rest[at + 3]])
}

fn wide(high: u32, low: u32) -> u64
    ensures { result ≡ wide high low }
{
    (high as u64) * 4294967296 + (low as u64)
}

fn clock_at(kind: u8, rest: &[u8]) -> u64
    requires { length_of kind ≤ length rest.now }
    ensures { result ≡ clock_at kind rest.now }
{
    if kind == CLOCKED {
        return wide(long_at(rest, CLOCK), long_at(rest, CLOCK_LOW));
    }
    0
}

fn nothing() -> Logged
    ensures { result ≡ nothing }
{
    Logged {
        kind: 0,
        answer: Answer {
            refusal: 0,
            value: 0,
            levels: 0,
            mask: 0,
            level: 0,
            vector: 0,
            clock: 0,
        },
    }
}

// The bytes at the start of a rest of a log; zeros where there are fewer than an answer's.
// Ruled out: a little-endian value or clock; levels and mask exchanged; a clock in kind 10.
pub fn logged_at(rest: &[u8]) -> Logged
    ensures { result ≡ logged_at rest.now }
{
    if rest.len() < PLAIN_LENGTH {
        return nothing();
    }
    let kind = rest[KIND];
    if rest.len() < length_of(kind) {
        return nothing();
    }
    let answer = Answer {
        refusal: rest[REFUSAL],
        value: long_at(rest, VALUE),
        levels: rest[LEVELS],
        mask: rest[MASK],
        level: rest[LEVEL],
        vector: rest[VECTOR],
        clock: clock_at(kind, rest),
    };
    Logged { kind, answer }
}

// The answer, unless something is wrong with it.
fn tested(l: Logged) -> Result<Logged, Fault>
    ensures { result ≡ tested l }
{
    let a = l.answer;
    if unnamed(a.refusal) {
        return Err(Fault::NoRefusal);
    }
    if (a.levels & a.mask) != a.levels {
        return Err(Fault::NotDriven);
    }
    Ok(l)
}

// Ruled out: 10 alone; 11 alone.
pub fn foreign_kind(first: u8) -> bool
    ensures { result ≡ foreign_kind first }
{
    !known_kind(first)
}

fn other_kind(kind: u8, first: u8) -> bool
    ensures { result ≡ other_kind kind first }
{
    kind != 0 && kind != first
}

// An answer, or what is wrong: its first byte is neither 10 nor 11, or not that of the answers before it, its refusal is none that an answer has, a pin that
// is not driven has a level, or the end of the log cuts it. The answers before it are of the kind given, or there are none and it is 0.
// Ruled out: a refusal that no answer has taken; an answer of another kind than those before it; a first byte of no kind that waits for more.
pub fn parse_answer(kind: u8, rest: &[u8]) -> Result<Logged, Fault>
    ensures { result ≡ entry kind rest.now }
{
    if rest.is_empty() {
        return Err(Fault::Cut);
    }
    let first = rest[KIND];
    if foreign_kind(first) {
        return Err(Fault::NoAnswer);
    }
    if other_kind(kind, first) {
        return Err(Fault::OtherKind);
    }
    if rest.len() < length_of(first) {
        return Err(Fault::Cut);
    }
    tested(logged_at(rest))
}
