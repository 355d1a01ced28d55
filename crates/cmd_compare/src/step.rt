// What a piece of each log makes of the run: the tally, the differing answers where they are to be shown, and what follows.
ghost use Rattle.std.specs.Prelude.{◌≡◌, cond};
ghost use Rattle.cmd_compare.specs.Step.{stopped, Steps};

use crate::piece::{End, kind_with, piece};
use crate::show::put_list;
use crate::tally::{Tally, answers_of};
use console::output::Out;
use files::system::Sink;

#[derive(Clone, Copy)]
pub struct Turned {
    pub tally: Tally,
    pub out: Out,
    pub end: End,
}

fn shown(shows: bool, count: u64) -> u64
    ensures { result ≡ cond shows count 0 }
{
    if shows { count } else { 0 }
}

// A failed write outdoes what follows.
fn stopped(failed: bool, end: End) -> End
    ensures { result ≡ stopped failed end }
{
    if failed { End::NotWritten } else { end }
}

// Ruled out: a difference shown in the pass that only counts; a line behind a failed write; the tally of another piece.
#[tactic(auto, using(crate::proofs::Stepping::stepped))]
pub fn step<'a>(
    shows: bool,
    to: &Sink,
    t: Turned,
    a: &'a [u8],
    b: &'a [u8],
    list: &mut [u64],
    lines: &mut [u8],
) -> Turned
    ensures { Steps shows t a.now b.now list.old lines.old result lines.new }
{
    let tally = t.tally;
    let out = t.out;
    let kind = kind_with(tally.kind, a, b);
    let p = piece(tally, kind, a, b, list);
    let n = shown(shows, p.count);
    let given = put_list(to, out, lines, kind, answers_of(tally), a, b, list, n);
    let next = p.tally;
    let end = p.end;
    Turned {
        tally: next,
        out: given,
        end: stopped(given.failed, end),
    }
}
