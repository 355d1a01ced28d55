// The answers or records of a piece that are whole, shown one after the other.
ghost use Rattle.std.specs.Prelude.{◌≡◌};
ghost use Rattle.cmd_show.specs.Piece.{past, Shows};

use crate::item::{What, found};
use console::output::{Out, put_line};
use files::pieces::counted;
use files::system::Sink;

// Where a run stands: the first byte of the answer or record before, or 0 at the start; the number of the next one, and its place in the piece.
#[derive(Clone, Copy)]
pub struct Run {
    pub kind: u8,
    pub number: u64,
    pub at: usize,
}

// Where it stands afterwards, the output, and what stands there.
#[derive(Clone, Copy)]
pub struct Went {
    pub run: Run,
    pub out: Out,
    pub what: What,
}

impl Run {
    fn past(self, kind: u8, at: usize) -> Run
        ensures { result ≡ past self kind at }
    {
        Run {
            kind,
            number: counted(self.number, 1),
            at,
        }
    }
}

// Shows what is whole in a piece, up to what is not.
// Ruled out: a line left out, written twice or out of order; a wrong number; one shown behind what is bad or behind a failed write.
pub fn show(traces: bool, run: Run, to: &Sink, out: Out, buf: &mut [u8], bytes: &[u8]) -> Went
    ensures { Shows traces bytes.now run out buf.old result buf.new }
{
    let mut now = run;
    let mut given = out;
    while now.at < bytes.len() {
        let at = now.at;
        let i = found(traces, now.kind, now.number, &bytes[at..]);
        let what = i.what;
        let What::Shown = what else {
            return Went {
                run: now,
                out: given,
                what,
            };
        };
        let line = i.line;
        given = put_line(to, given, buf, line);
        now = now.past(bytes[at], at + i.size);
        if given.failed {
            return Went {
                run: now,
                out: given,
                what: What::More,
            };
        }
    }
    Went {
        run: now,
        out: given,
        what: What::More,
    }
}
