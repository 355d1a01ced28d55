// A trace read piece by piece, and drawn.
use crate::ending::wants;
use crate::piece::{Went, draw, rebased};
use console::input::{Source, more};
use console::output::{Out, flush};
use files::origin::Origin;
use files::pieces::counted;
use files::system::{Sink, System};
use std::io::Error;
use tool_wave::{Step, Stop, Turned};

// The input, where the drawing stands, and why the input could not be read, if so.
#[derive(Clone, Copy)]
struct Drawing {
    source: Source,
    went: Went,
    unread: Option<Error>,
}

// How a drawing ended: why the trace could not be read, if so, what was told last, at which place in bytes and at which clock since the start, and the
// output, in whose buffer something may wait.
#[derive(Clone, Copy)]
pub struct End {
    pub unread: Option<Error>,
    pub told: Result<Option<Step>, Stop>,
    pub place: u64,
    pub clock: u64,
    pub out: Out,
}

// What waits to be written does not wait for more to be read where that may take long.
fn before_read(plain: bool, to: &Sink, out: Out, buf: &[u8]) -> Out {
    if plain {
        return out;
    }
    flush(to, out, buf)
}

// Reads once, and draws what is there.
fn turn<R: System>(
    rt: &R,
    hz: u32,
    from: &Origin,
    to: &Sink,
    d: Drawing,
    buf: &mut [u8],
    lines: &mut [u8],
) -> Drawing {
    let source = d.source;
    let w = d.went;
    let t = w.turned;
    let s = t.state;
    let out = before_read(source.plain, to, w.out, lines);
    match more(rt, from, source, buf, s.at) {
        Ok(now) => Drawing {
            source: now,
            went: draw(hz, rebased(s), to, out, lines, &buf[..now.total]),
            unread: None,
        },
        Err(e) => Drawing {
            source,
            went: Went { turned: t, out },
            unread: Some(e),
        },
    }
}

fn ended(d: Drawing) -> End {
    let source = d.source;
    let w = d.went;
    let t = w.turned;
    let s = t.state;
    let probe = s.probe;
    let told = t.outcome;
    let out = w.out;
    End {
        unread: d.unread,
        told,
        place: counted(source.place, s.at),
        clock: probe.clock,
        out,
    }
}

// Draws what comes from an origin. What is left in the buffer for lines is still to be written.
pub fn draw_all<R: System>(
    rt: &R,
    hz: u32,
    from: &Origin,
    to: &Sink,
    out: Out,
    lines: &mut [u8],
) -> End {
    let mut buf = io::large_buffer();
    let mut now = Drawing {
        source: Source::of(from),
        went: Went {
            turned: Turned {
                state: tool_wave::start(),
                outcome: Err(Stop::End),
            },
            out,
        },
        unread: None,
    };
    for _ in 0..u64::MAX {
        now = turn(rt, hz, from, to, now, &mut buf, lines);
        let source = now.source;
        let e = ended(now);
        let told = e.told;
        let given = e.out;
        if e.unread.is_some() | given.failed | source.ended | !wants(told) {
            return e;
        }
    }
    ended(now)
}
