// The trace: records in, answers out, and refusals 5 to 7 and 10.
#![tactic(auto)]

ghost use Rattle.std.specs.Prelude.{◌≡◌, ◌++◌, ◌≤◌, length, drop};
ghost use Rattle.trace.specs.Trace.{parsed, answer_length, answer_bytes};
ghost use Rattle.trace.specs.Play.{stop_number, refusal_of, play, Plays};

use qsm::event::{Answer, Event};
use qsm::state::Module;

mod claims;
mod fields;
pub mod refusals;

// What stands at the start of a rest of a trace: an event and the position past its record, or why there is none.
#[derive(Clone, Copy)]
pub enum Parsed {
    Record(Event, usize),
    Unknown,
    Cut,
}

// Why a trace went no further.
#[derive(Clone, Copy)]
pub enum Stop {
    End,
    UnknownKind,
    CutRecord,
    NoRoom,
    ClockLimit,
}

// The module after a trace, the bytes read and written, and why it stopped.
#[derive(Clone, Copy)]
pub struct Played {
    pub state: Module,
    pub read: usize,
    pub written: usize,
    pub stop: Stop,
}

// The kinds of a record.
const RESET: u8 = 0x01;

const HOLD: u8 = 0x02;

const READ: u8 = 0x03;

const WRITE: u8 = 0x04;

const LONG_HOLD: u8 = 0x05;

// The bytes of an answer.
pub const ANSWER_LENGTH: usize = answers::CLOCKED_LENGTH;

// The refusal of a hold that would pass 2^64 - 1 clocks.
const CLOCK_LIMIT: u8 = 10;

// The record at the start of a rest of a trace.
// Ruled out: a cut record of an unknown kind that is 6; a low byte lost; a user taken for a supervisor; a long hold of its low word.
pub fn parse(rest: &[u8]) -> Parsed
    ensures { result ≡ parsed rest.now }
{
    if rest.is_empty() {
        return Parsed::Cut;
    }
    match rest[0] {
        RESET => Parsed::Record(Event::Reset, 1),
        HOLD => fields::hold(rest),
        READ => fields::read(rest),
        WRITE => fields::write(rest),
        LONG_HOLD => fields::long_hold(rest),
        _ => Parsed::Unknown,
    }
}

// Why a trace stops before what is no whole record.
fn refused(p: Parsed) -> Stop
    ensures { stop_number result ≡ refusal_of p }
{
    match p {
        Parsed::Record(_, _) => Stop::End,
        Parsed::Unknown => Stop::UnknownKind,
        Parsed::Cut => Stop::CutRecord,
    }
}

// The refusal's number, 0 at the end of a trace.
// Ruled out: 6 and 5 exchanged; a number for the end.
pub fn stop_number(s: Stop) -> u8
    ensures { result ≡ stop_number s }
{
    match s {
        Stop::End => 0,
        Stop::UnknownKind => 5,
        Stop::CutRecord => 6,
        Stop::NoRoom => 7,
        Stop::ClockLimit => CLOCK_LIMIT,
    }
}

// Ruled out: the bytes of kind 10; a byte of another field.
pub fn answer_bytes(a: Answer) -> [u8; 18]
    ensures { result ≡ answer_bytes a }
{
    answers::bytes_of(
        a.refusal, a.value, a.levels, a.mask, a.level, a.vector, a.clock,
    )
}

// An answer at the start of what is left of the lent output.
fn put_answer(left: &mut [u8], a: Answer)
    requires { answer_length ≤ length left.old }
    ensures { left.new ≡ answer_bytes a ++ drop answer_length left.old }
{
    left[..ANSWER_LENGTH].copy_from_slice(&answer_bytes(a));
}

// Plays a trace on a module, with its answers into a lent output.
// Ruled out: an answer over an earlier one; a byte changed past the answers; a stop after the record that caused it; a hold past the limit
// that is answered.
pub fn play(m: Module, trace: &[u8], out: &mut [u8]) -> Played
    ensures { Plays (play m trace.now (length out.old)) out.old result out.new }
{
    let mut state = m;
    let mut at = 0;
    let mut put = 0;
    while at < trace.len() {
        let p = parse(&trace[at..]);
        let Parsed::Record(e, size) = p else {
            let stop = refused(p);
            return Played {
                state,
                read: at,
                written: put,
                stop,
            };
        };
        if out.len() - put < ANSWER_LENGTH {
            return Played {
                state,
                read: at,
                written: put,
                stop: Stop::NoRoom,
            };
        }
        let s = qsm::event::step(state, e);
        let answer = s.answer;
        let next = s.state;
        // A hold that is refused 10 leaves the module as it was.
        state = next;
        if answer.refusal == CLOCK_LIMIT {
            return Played {
                state,
                read: at,
                written: put,
                stop: Stop::ClockLimit,
            };
        }
        put_answer(&mut out[put..], answer);
        at += size;
        put += ANSWER_LENGTH;
    }
    Played {
        state,
        read: at,
        written: put,
        stop: Stop::End,
    }
}
