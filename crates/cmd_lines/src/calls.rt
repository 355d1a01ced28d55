// Calls of the gatherer on a piece of a trace, one after the other. That pieces give what the whole gives is its law `InPieces`.
ghost use Rattle.std.specs.Prelude.{◌≡◌, length};
ghost use Rattle.cmd_lines.specs.Calls.{begun, drops, over, called, again, rebased};

use tool_lines::Lines;
use tool_lines::line::Outcome;
use tool_lines::piece::go_on_piece;

// Where a run stands: the gatherer's state, whose place counts from the piece's first byte, what its last call told, and whether a line was dropped.
#[derive(Clone, Copy)]
pub struct Run {
    pub state: Lines,
    pub told: Outcome,
    pub dropped: bool,
}

fn drops(o: Outcome) -> bool
    ensures { result ≡ drops o }
{
    match o {
        Outcome::Nothing => false,
        Outcome::Handed(_, _) => false,
        Outcome::Dropped(_, _) => true,
        Outcome::Stopped(_) => false,
        Outcome::Ended => false,
        Outcome::Refused(_) => false,
    }
}

// Whether a piece has no more to tell.
pub fn over(o: Outcome) -> bool
    ensures { result ≡ over o }
{
    match o {
        Outcome::Nothing => true,
        Outcome::Handed(_, _) => false,
        Outcome::Dropped(_, _) => false,
        Outcome::Stopped(_) => true,
        Outcome::Ended => true,
        Outcome::Refused(_) => true,
    }
}

// Room for a line.
fn room() -> [u8; 128]
    ensures { 128 ≡ length result }
{
    [0u8; 128]
}

// One call on a piece, which is the last of the trace or not.
fn call(s: Lines, bytes: &[u8], last: bool, period: u32) -> tool_lines::Turned
    ensures { result ≡ called period bytes.now last s }
{
    let mut line = room();
    go_on_piece(s, bytes, last, period, &mut line)
}

impl Run {
    // At the start of a trace.
    // Ruled out: a module that is not fresh from reset; a line dropped before the first.
    pub fn start() -> Run
        ensures { result ≡ begun }
    {
        Run {
            state: tool_lines::start(),
            told: Outcome::Nothing,
            dropped: false,
        }
    }

    // Ruled out: a drop that a later line makes forgotten; a call from the state before.
    pub fn again(self, bytes: &[u8], last: bool, period: u32) -> Run
        ensures { result ≡ again period bytes.now last self }
    {
        let t = call(self.state, bytes, last, period);
        let state = t.state;
        let told = t.outcome;
        Run {
            state,
            told,
            dropped: self.dropped | drops(told),
        }
    }

    // Where the next piece begins with the bytes from the place on.
    // Ruled out: a place kept from the piece before.
    pub fn rebased(self) -> Run
        ensures { result ≡ rebased self }
    {
        let state = self.state;
        let told = self.told;
        Run {
            state: state.rebased(),
            told,
            dropped: self.dropped,
        }
    }
}
