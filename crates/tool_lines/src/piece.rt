// A trace that comes in pieces.
ghost use Rattle.std.specs.Prelude.{◌≡◌, cond, length};
ghost use Rattle.tool_lines.specs.Call.{called, Calls};
ghost use Rattle.tool_lines.specs.Pieces.{wants, waiting, rebased};
ghost use Rattle.tool_lines.specs.declared.line.Outcome.TheVariants as told;

use crate::line::Outcome;
use crate::stop::Stop;
use crate::{Lines, Turned, go_on};

// Whether more bytes could change what a call told.
fn wants(o: Outcome) -> bool
    ensures { result ≡ wants o }
{
    match o {
        Outcome::Stopped(Stop::CutRecord) | Outcome::Ended => true,
        _ => false,
    }
}

fn unless(quiet: bool, o: Outcome) -> Outcome
    ensures { result ≡ cond quiet told.Nothing o }
{
    if quiet { Outcome::Nothing } else { o }
}

impl Turned {
    fn waiting(self, last: bool) -> Turned
        ensures { result ≡ waiting last self }
    {
        if last {
            self
        } else {
            let state = self.state;
            let o = self.outcome;
            Turned {
                state,
                outcome: unless(wants(o), o),
            }
        }
    }
}

impl Lines {
    // Where the next piece begins with the bytes from the place on.
    // Ruled out: a place kept from the piece before; a line forgotten between pieces.
    pub fn rebased(mut self) -> Lines
        ensures { result ≡ rebased self }
    {
        self.at = 0;
        self
    }
}

// Goes on as `go_on` does through a piece of a trace. At its end, or before a record that its end cuts, there is nothing to tell unless it is the
// last.
// Ruled out: a record refused 6 because a piece cuts it; the trace's end told at a piece's end.
pub fn go_on_piece(s: Lines, piece: &[u8], last: bool, period: u32, line: &mut [u8]) -> Turned
    ensures { Calls (waiting last (called period piece.now (length line.old) s)) line.old result line.new }
{
    let t = go_on(s, piece, period, line);
    t.waiting(last)
}
