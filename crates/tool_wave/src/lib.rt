// A trace drawn: the changes of pins, inputs and request, each at its own clock, in order, for a file that wave viewers read.
#![tactic(auto)]

ghost use Rattle.std.specs.Prelude.{◌≡◌};
ghost use Rattle.tool_wave.specs.Stop.{number_of};
ghost use Rattle.tool_wave.specs.Turn.{begun, turn};

pub mod claims;
pub mod probe;
mod turn;
pub mod vcd;
pub mod view;

use probe::Probe;
use view::View;

// Where a drawing stands: the place in the trace, the clocks left of the hold under way, and the module with its lines.
#[derive(Clone, Copy)]
pub struct Waves {
    pub at: usize,
    pub left: u32,
    pub probe: Probe,
}

// What changed at a clock since the start of the trace: what is drawn before and after it, and the refusal of an access, or 0.
#[derive(Clone, Copy)]
pub struct Step {
    pub clock: u64,
    pub before: View,
    pub after: View,
    pub refusal: u8,
}

// Why there is no turn more: the end of the trace, or the refusal that stopped it.
#[derive(Clone, Copy, PartialEq, Eq)]
pub enum Stop {
    End = 0,
    UnknownKind = 5,
    CutRecord = 6,
    ClockLimit = 10,
}

// Its number.
// Ruled out: the number of another; a number for the end.
impl From<Stop> for u8 {
    ghost from_gives = { λ s n. n ≡ number_of s };

    fn from(stop: Stop) -> u8 {
        stop as u8
    }
}

// What a turn leaves, and what there is to tell: a change or none, or why there is no turn more.
#[derive(Clone, Copy)]
pub struct Turned {
    pub state: Waves,
    pub outcome: Result<Option<Step>, Stop>,
}

// At the start of a trace.
// Ruled out: a module that is not fresh from reset; a first time other than 0.
pub fn start() -> Waves
    ensures { result ≡ begun }
{
    Waves {
        at: 0,
        left: 0,
        probe: Probe::start(),
    }
}

// A turn: the hold under way up to its next change or its end, or the next record. The place in the trace counts from its first byte.
// Ruled out: a change at the end of its hold; a change left out; a stop that moves the state.
pub fn go_on(s: Waves, trace: &[u8]) -> Turned
    ensures { result ≡ turn trace.now s }
{
    s.turn(trace)
}
