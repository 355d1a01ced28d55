// A trace read piece by piece, and played.
ghost use Rattle.std.specs.Prelude.{◌≡◌};
ghost use Rattle.tool_lines.specs.Call.{nothing};

use crate::calls::Run;
use crate::piece::{Wanted, Went, play};
use console::input::{Source, more};
use console::output::{Out, flush};
use files::origin::Origin;
use files::pieces::counted;
use files::system::{Sink, System};
use std::io::Error;
use tool_lines::line::Outcome;

// The input, where the run stands, and why the input could not be read, if so.
#[derive(Clone, Copy)]
struct Turned {
    source: Source,
    went: Went,
    unread: Option<Error>,
}

// How a replay ended: why the trace could not be read, if so, what was told last and at which place in bytes, whether a line was dropped, and the two
// outputs, in whose buffers something may wait.
#[derive(Clone, Copy)]
pub struct End {
    pub unread: Option<Error>,
    pub told: Outcome,
    pub place: u64,
    pub dropped: bool,
    pub lines: Out,
    pub words: Out,
}

// What waits to be written does not wait for more to be read where that may take long.
fn before_read(plain: bool, to: &Sink, out: Out, buf: &[u8]) -> Out {
    if plain {
        return out;
    }
    flush(to, out, buf)
}

// Reads once, and plays what is there.
fn turn<R: System>(
    rt: &R,
    wanted: Wanted,
    from: &Origin,
    to: &Sink,
    err: &Sink,
    t: Turned,
    buf: &mut [u8],
    lines: &mut [u8],
    words: &mut [u8],
) -> Turned {
    let source = t.source;
    let w = t.went;
    let run = w.run;
    let state = run.state;
    let start = Went {
        run: run.rebased(),
        lines: before_read(source.plain, to, w.lines, lines),
        words: before_read(source.plain, err, w.words, words),
    };
    match more(rt, from, source, buf, state.at) {
        Ok(now) => Turned {
            source: now,
            went: play(
                wanted,
                to,
                err,
                start,
                lines,
                words,
                &buf[..now.total],
                now.ended,
            ),
            unread: None,
        },
        Err(e) => Turned {
            source,
            went: start,
            unread: Some(e),
        },
    }
}

// Whether a piece left nothing to tell, so that the next is read.
fn goes_on(told: Outcome) -> bool
    ensures { result ≡ nothing told }
{
    match told {
        Outcome::Nothing => true,
        Outcome::Handed(_, _) => false,
        Outcome::Dropped(_, _) => false,
        Outcome::Stopped(_) => false,
        Outcome::Ended => false,
        Outcome::Refused(_) => false,
    }
}

fn errors(err: &Sink) -> Out {
    Out::to(err.is_terminal())
}

fn ended(t: Turned) -> End {
    let source = t.source;
    let w = t.went;
    let run = w.run;
    let state = run.state;
    let told = run.told;
    let lines = w.lines;
    let words = w.words;
    End {
        unread: t.unread,
        told,
        place: counted(source.place, state.at),
        dropped: run.dropped,
        lines,
        words,
    }
}

// Plays what comes from an origin, lines to standard output and words to standard error. What is left in the two buffers is still to be written.
pub fn play_all<R: System>(
    rt: &R,
    wanted: Wanted,
    from: &Origin,
    to: &Sink,
    err: &Sink,
    lines: &mut [u8],
    words: &mut [u8],
) -> End {
    let mut buf = io::large_buffer();
    let mut now = Turned {
        source: Source::of(from),
        went: Went {
            run: Run::start(),
            lines: Out::standard(to),
            words: errors(err),
        },
        unread: None,
    };
    for _ in 0..u64::MAX {
        now = turn(rt, wanted, from, to, err, now, &mut buf, lines, words);
        let e = ended(now);
        let out = e.lines;
        let said = e.words;
        let told = e.told;
        if e.unread.is_some() | (out.failed | said.failed) | !goes_on(told) {
            return e;
        }
    }
    ended(now)
}
