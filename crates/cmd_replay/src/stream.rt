// A trace read piece by piece and played, on a module fresh from reset.
ghost use Rattle.std.specs.Prelude.{◌≡◌, length};
ghost use Rattle.cmd_replay.specs.Reached.{Reached, Turns};
ghost use Rattle.cmd_replay.specs.Piece.{started, goes_on};

use crate::piece::{Next, Run, step};
use console::input::{Source, more};
use console::output::{Out, flush};
use files::origin::Origin;
use files::pieces::counted;
use files::system::{Sink, System};

// The run, the output, the input with how many bytes of its buffer were played, and what follows.
#[derive(Clone, Copy)]
pub struct Turned {
    pub run: Run,
    pub out: Out,
    pub source: Source,
    pub at: usize,
    pub next: Next,
}

// At the start of an input, with standard output.
// Ruled out: a module that is not fresh from reset.
pub fn begin(from: &Origin, to: &Sink) -> Turned
    ensures { result.run ≡ started }
{
    Turned {
        run: Run::start(),
        out: Out::standard(to),
        source: Source::of(from),
        at: 0,
        next: Next::Read,
    }
}

// The place in bytes of the record that a run stands before.
pub fn place(t: Turned) -> u64 {
    let source = t.source;
    counted(source.place, t.at)
}

// What waits to be written does not wait for more to be read where that may take long.
fn before_read(source: Source, to: &Sink, out: Out, lines: &[u8]) -> Out {
    if source.plain {
        return out;
    }
    flush(to, out, lines)
}

// Reads once, behind what is left.
fn read_on<R: System>(
    rt: &R,
    from: &Origin,
    to: &Sink,
    t: Turned,
    buf: &mut [u8],
    lines: &[u8],
) -> Turned
    ensures { result.run ≡ t.run }
{
    let run = t.run;
    let source = t.source;
    let out = before_read(source, to, t.out, lines);
    if out.failed {
        return Turned {
            run,
            out,
            source,
            at: t.at,
            next: Next::NotWritten,
        };
    }
    match more(rt, from, source, buf, t.at) {
        Ok(now) => Turned {
            run,
            out,
            source: now,
            at: 0,
            next: Next::Play,
        },
        Err(e) => Turned {
            run,
            out,
            source,
            at: 0,
            next: Next::NotRead(e),
        },
    }
}

// Plays what is there.
#[tactic(auto, using(crate::proofs::Reaching::turned))]
fn play_on(to: &Sink, t: Turned, buf: &[u8], lines: &mut [u8], room: &mut [u8]) -> Turned
    ensures { Turns t.run (length room.old) result }
{
    let source = t.source;
    let end = source.total.min(buf.len());
    let from = t.at.min(end);
    let run = t.run;
    let s = step(run, to, t.out, lines, &buf[from..end], source.ended, room);
    let past = s.run;
    let next = s.next;
    let given = s.out;
    Turned {
        run: past,
        out: given,
        source,
        at: counted(from as u64, s.read) as usize,
        next,
    }
}

// Plays what is there, or reads more.
// Ruled out: a module that is not what the bytes played leave.
#[tactic(auto, using(crate::proofs::Reaching::still))]
pub fn turn<R: System>(
    rt: &R,
    from: &Origin,
    to: &Sink,
    t: Turned,
    buf: &mut [u8],
    lines: &mut [u8],
    room: &mut [u8],
) -> Turned
    ensures { Turns t.run (length room.old) result }
{
    let next = t.next;
    match next {
        Next::Read => read_on(rt, from, to, t, buf, lines),
        _ => play_on(to, t, buf, lines, room),
    }
}

// Whether a run goes on.
// Ruled out: a run that goes on behind its end; one that stops before it.
pub fn goes_on(next: Next) -> bool
    ensures { result ≡ goes_on next }
{
    match next {
        Next::Play => true,
        Next::Read => true,
        Next::Done => false,
        Next::Refused(_) => false,
        Next::NotRead(_) => false,
        Next::NotWritten => false,
    }
}

// Room for 32,768 answers; what it doesn't hold is played on.
fn answers() -> [u8; 589824]
    ensures { 589824 ≡ length result }
{
    [0u8; 589824]
}

// Plays what an origin gives, to a log on standard output. What is left in the buffer for it is still to be written.
// Ruled out: a module that the records answered don't lead to; so, by the law `OfRecords`, an account that is not of the events since the last reset.
pub fn replay<R: System>(rt: &R, from: &Origin, to: &Sink, lines: &mut [u8]) -> Turned
    ensures { Reached result.run }
{
    let mut buf = io::large_buffer();
    let mut room = answers();
    let mut now = begin(from, to);
    for _ in 0..u64::MAX {
        now = turn(rt, from, to, now, &mut buf, lines, &mut room);
        let next = now.next;
        if !goes_on(next) {
            return now;
        }
    }
    now
}
