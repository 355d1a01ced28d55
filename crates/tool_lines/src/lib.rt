// Document 02, L8: a trace is played with polling put in, and delivered words are gathered into lines.
#![tactic(auto)]

ghost use Rattle.std.specs.Prelude.{◌≡◌, ◌<◌, ◌≤◌, ◌||◌, ◌++◌, true, false, eqb, ltb, length, take, drop, MatchOption};
ghost use Rattle.std.specs.Int.NonZero.{non_zero_u16_get};
ghost use Rattle.tool_lines.specs.Gather.{most};
ghost use Rattle.tool_lines.specs.Call.{started, go_on, called, handed_in, Calls};

pub mod claims;
pub mod line;
pub mod noise;
pub mod piece;
pub mod poll;
pub mod stop;
mod turn;

use line::{Line, MOST, Outcome};
use noise::{Noise, Noises};
use qsm::state::Module;
use std::num::NonZeroU16;
use stop::Refusal;

// Where a replay stands: the place in the trace, the clocks left of the hold under way, the clocks since the last poll, the hold's levels, the line
// being gathered, the noise figures, and the module.
#[repr(C)]
#[derive(Clone, Copy)]
pub struct Lines {
    pub at: usize,
    pub left: u32,
    pub since: u16,
    pub pins: u8,
    pub rxd: bool,
    pub line: Line,
    pub noise: Noises,
    pub device: Module,
}

#[derive(Clone, Copy)]
pub struct Turned {
    pub state: Lines,
    pub outcome: Outcome,
}

// At the start of a trace.
// Ruled out: a module that is not fresh from reset; a first line with number 1.
pub fn start() -> Lines
    ensures { result ≡ started }
{
    let line = Line {
        number: 0,
        cause: 0,
        count: 0,
        characters: [0u8; 128],
    };
    let noise = Noises {
        line: Noise::silent(),
        last: Noise::silent(),
    };
    Lines {
        at: 0,
        left: 0,
        since: 0,
        pins: 0,
        rxd: false,
        line,
        noise,
        device: Module::reset(),
    }
}

// Turn after turn until there is something to tell.
fn advance(s: Lines, trace: &[u8], period: NonZeroU16) -> Turned
    ensures { result ≡ go_on (non_zero_u16_get period) trace.now s }
{
    let mut state = s;
    loop {
        let t = state.turn(trace, period);
        let told = t.outcome;
        let Outcome::Nothing = told else {
            return t;
        };
        let next = t.state;
        state = next;
    }
}

// The first n characters to the start of a line buffer.
fn put_first(characters: [u8; 128], n: u8, line: &mut [u8])
    requires { most ≤ length line.old }
    ensures { line.new ≡ take n characters ++ drop (length (take n characters)) line.old }
{
    let end = usize::from(n.min(MOST));
    line[..end].copy_from_slice(&characters[..end]);
}

// A line's characters to the start of the lent buffer.
fn hand_in(l: Line, outcome: Outcome, line: &mut [u8])
    requires { most ≤ length line.old }
    ensures { line.new ≡ handed_in l outcome line.old }
{
    let characters = l.characters;
    let Outcome::Handed(_, n) = outcome else {
        return;
    };
    put_first(characters, n, line);
}

// 1 to 65,535 clocks.
fn period_of(period: u32) -> Option<NonZeroU16>
    ensures { MatchOption result (eqb period 0 || ltb 65535 period ≡ true) (λ p. (non_zero_u16_get p ≡ period) × (eqb period 0 || ltb 65535 period ≡ false)) }
{
    if 65535 < period {
        return None;
    }
    NonZeroU16::new(period as u16)
}

// Goes on to the next line, drop, stop or end of the trace. The place in the trace counts from its first byte.
// Ruled out: a line with a lost character; a drop that changes the buffer; a refusal that moves the state.
pub fn go_on(s: Lines, trace: &[u8], period: u32, line: &mut [u8]) -> Turned
    ensures { Calls (called period trace.now (length line.old) s) line.old result line.new }
{
    let Some(period) = period_of(period) else {
        return s.turned(Outcome::Refused(Refusal::Period));
    };
    if line.len() < 128 {
        return s.turned(Outcome::Refused(Refusal::Room));
    }
    let r = advance(s, trace, period);
    let state = r.state;
    let l = state.line;
    let told = r.outcome;
    hand_in(l, told, line);
    r
}
