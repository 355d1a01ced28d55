// A log or a trace read piece by piece, and shown.
ghost use Rattle.std.specs.Prelude.{◌≡◌};
ghost use Rattle.cmd_show.specs.Next.{decided};

use crate::item::What;
use crate::piece::{Run, Went, show};
use console::input::{Source, more};
use console::output::{Out, flush};
use files::origin::Origin;
use files::pieces::counted;
use files::system::{Sink, System};
use std::io::Error;
use text::message::Fault;

#[derive(Clone, Copy)]
pub enum Next {
    More,
    Done,
    Bad(Fault),
    NotRead(Error),
    NotWritten,
}

#[derive(Clone, Copy)]
pub struct Turned {
    pub run: Run,
    pub source: Source,
    pub out: Out,
    pub next: Next,
}

// What follows a piece, behind which the input has ended or not, and of which bytes are left or none.
// Ruled out: a cut answer at the end taken for done; one in the middle taken for cut; a fault behind a failed write.
fn decided(failed: bool, what: What, ended: bool, left: bool) -> Next
    ensures { result ≡ decided failed what ended left }
{
    if failed {
        return Next::NotWritten;
    }
    match what {
        What::Bad(fault) => Next::Bad(fault),
        What::Shown => Next::More,
        What::More => {
            if ended {
                if left {
                    return Next::Bad(Fault::Cut);
                }
                return Next::Done;
            }
            Next::More
        }
    }
}

fn after(w: Went, source: Source) -> Turned {
    let run = w.run;
    let out = w.out;
    let what = w.what;
    Turned {
        run,
        source,
        out,
        next: decided(out.failed, what, source.ended, run.at < source.total),
    }
}

// What waits to be written does not wait for more to be read where that may take long.
fn before_read(to: &Sink, source: Source, out: Out, lines: &[u8]) -> Out {
    if source.plain {
        return out;
    }
    flush(to, out, lines)
}

// Reads once and shows what is there.
fn turn<R: System>(
    rt: &R,
    traces: bool,
    from: &Origin,
    to: &Sink,
    t: Turned,
    buf: &mut [u8],
    lines: &mut [u8],
) -> Turned {
    let run = t.run;
    let source = t.source;
    let out = t.out;
    let written = before_read(to, source, out, lines);
    if written.failed {
        return Turned {
            run,
            source,
            out: written,
            next: Next::NotWritten,
        };
    }
    let read = more(rt, from, source, buf, run.at);
    let start = Run {
        kind: run.kind,
        number: run.number,
        at: 0,
    };
    match read {
        Ok(now) => after(
            show(traces, start, to, written, lines, &buf[..now.total]),
            now,
        ),
        Err(e) => Turned {
            run: start,
            source,
            out: written,
            next: Next::NotRead(e),
        },
    }
}

// Shows what comes from an input, on the output that is given. What is left in the buffer for lines is still to be written.
pub fn show_all<R: System>(
    rt: &R,
    traces: bool,
    from: &Origin,
    to: &Sink,
    lines: &mut [u8],
) -> Turned {
    let mut buf = io::large_buffer();
    let mut now = Turned {
        run: Run {
            kind: 0,
            number: 0,
            at: 0,
        },
        source: Source::of(from),
        out: Out::standard(to),
        next: Next::More,
    };
    for _ in 0..u64::MAX {
        now = turn(rt, traces, from, to, now, &mut buf, lines);
        let next = now.next;
        let Next::More = next else {
            return now;
        };
    }
    now
}

// The place in bytes of what a run stands before.
pub fn place(t: Turned) -> u64 {
    let source = t.source;
    let run = t.run;
    counted(source.place, run.at)
}
