// The turns of a drawing through a piece of a trace, one after the other, and what they draw. That pieces give what the whole gives are the laws `Grows`
// and `Shifts` of the drawing.
ghost use Rattle.std.specs.Prelude.{◌≡◌};
ghost use Rattle.console.specs.Output.{Gives};
ghost use Rattle.cmd_wave.specs.Piece.{over, step_told, rebased, Draws};

use console::output::{Out, put_line};
use files::system::Sink;
use tool_wave::vcd::step_text;
use tool_wave::{Step, Stop, Turned, Waves, go_on};

// Where a drawing stands after a piece, with what its last turn told, and the output.
#[derive(Clone, Copy)]
pub struct Went {
    pub turned: Turned,
    pub out: Out,
}

// Whether a piece has no more to draw.
fn over(o: Result<Option<Step>, Stop>) -> bool
    ensures { result ≡ over o }
{
    o.is_err()
}

// Ruled out: a change that is not drawn; the text of the change before.
#[tactic(auto, using(console::proofs::Lines::nothing))]
fn put_step(hz: u32, to: &Sink, out: Out, buf: &mut [u8], told: Result<Option<Step>, Stop>) -> Out
    ensures { Gives out buf.old (step_told hz told) result buf.new }
{
    let Ok(told) = told else {
        return out;
    };
    match told {
        Some(step) => put_line(to, out, buf, step_text(hz, step)),
        None => out,
    }
}

// Where the next piece begins with the bytes from the place on.
// Ruled out: a place kept from the piece before.
pub fn rebased(s: Waves) -> Waves
    ensures { result ≡ rebased s }
{
    let probe = s.probe;
    Waves {
        at: 0,
        left: s.left,
        probe,
    }
}

// Turn after turn, until a piece has no more to draw or a write failed.
// Ruled out: a change left out, drawn twice or out of order; one drawn behind a stop.
#[tactic(auto, using(crate::proofs::Drawing::starts, crate::proofs::Drawing::onwards))]
pub fn draw(hz: u32, s: Waves, to: &Sink, out: Out, buf: &mut [u8], bytes: &[u8]) -> Went
    ensures { Draws hz bytes.now s out buf.old result buf.new }
{
    let mut now = Turned {
        state: s,
        outcome: Ok(None),
    };
    let mut given = out;
    for _ in 0..u64::MAX {
        now = go_on(now.state, bytes);
        let told = now.outcome;
        given = put_step(hz, to, given, buf, told);
        if over(told) | given.failed {
            return Went {
                turned: now,
                out: given,
            };
        }
    }
    Went {
        turned: now,
        out: given,
    }
}
