// Two logs read piece by piece, each piece of whole answers but the last.
ghost use Rattle.std.specs.Prelude.{◌≡◌, length, IfOk};
ghost use Rattle.io.specs.Counts.{IsPrefixLen};

use crate::piece::{End, Log};
use crate::step::{Turned, step};
use crate::tally::nothing;
use console::output::Out;
use files::origin::Origin;
use files::pieces::fill;
use files::system::{Sink, System};

// Reads until the buffer is full or the input ends; how many bytes there are.
fn fill_up<R: System>(rt: &R, from: &Origin, buf: &mut [u8]) -> std::io::Result<usize>
    ensures { IfOk result (λ n. IsPrefixLen n buf.new) }
{
    let mut have: usize = 0;
    while have < buf.len() {
        let f = fill(rt, from, buf, have, false)?;
        if f.total <= have {
            break;
        }
        have = f.total;
    }
    Ok(have)
}

fn not_read(t: Turned, log: Log) -> Turned {
    let tally = t.tally;
    let out = t.out;
    Turned {
        tally,
        out,
        end: End::NotRead(log),
    }
}

// Room for a piece of 6,552 answers of ten bytes or 3,640 of eighteen.
fn answers() -> [u8; 65520]
    ensures { 65520 ≡ length result }
{
    [0u8; 65520]
}

// Two numbers for each of them.
fn numbers() -> [u64; 13104]
    ensures { 13104 ≡ length result }
{
    [0u64; 13104]
}

fn turn<R: System>(
    rt: &R,
    shows: bool,
    to: &Sink,
    t: Turned,
    first: &Origin,
    second: &Origin,
    a: &mut [u8],
    b: &mut [u8],
    lines: &mut [u8],
) -> Turned {
    let Ok(n) = fill_up(rt, first, a) else {
        return not_read(t, Log::First);
    };
    let Ok(m) = fill_up(rt, second, b) else {
        return not_read(t, Log::Second);
    };
    let mut list = numbers();
    step(shows, to, t, &a[..n], &b[..m], &mut list, lines)
}

// Compares what two inputs give, from where they stand to their ends, and shows the differing answers if it is to. What is left in the buffer
// for lines is still to be written.
pub fn pass<R: System>(
    rt: &R,
    shows: bool,
    first: &Origin,
    second: &Origin,
    to: &Sink,
    out: Out,
    lines: &mut [u8],
) -> Turned {
    let mut a = answers();
    let mut b = answers();
    let mut now = Turned {
        tally: nothing(),
        out,
        end: End::More,
    };
    for _ in 0..u64::MAX {
        now = turn(rt, shows, to, now, first, second, &mut a, &mut b, lines);
        let end = now.end;
        let End::More = end else {
            return now;
        };
    }
    now
}
