// A trace read from the last mark on, and indexed.
use crate::piece::{Made, Next, make};
use console::input::{Source, more};
use files::origin::Origin;
use files::system::System;
use files::whole::seek;
use tool_index::walk::Position;

fn nothing_read(at: Position, marks: usize) -> Made {
    Made {
        at,
        marks,
        read: 0,
        next: Next::More,
    }
}

// The last mark, if the trace goes on there; else its start, and marks afresh. A mark that no trace can have is not gone to.
fn begin<R: System>(rt: &R, from: &Origin, lent: &[u64], count: usize) -> Made {
    let last = tool_index::index::mark_for(lent, count, u64::MAX);
    if last.possible(u64::MAX) {
        if seek(rt, from, last.place) {
            return nothing_read(last, count);
        }
    }
    nothing_read(Position::start(), 0)
}

// Reads on until the trace is indexed; or why it could not be read.
pub fn index<R: System>(
    rt: &R,
    from: &Origin,
    lent: &mut [u64],
    count: usize,
) -> std::io::Result<Made> {
    let mut buf = io::large_buffer();
    let mut source = Source::of(from);
    let mut made = begin(rt, from, lent, count);
    for _ in 0..u64::MAX {
        source = more(rt, from, source, &mut buf, made.read)?;
        made = make(
            made.at,
            made.marks,
            &buf[..source.total],
            lent,
            source.ended,
        );
        let Next::More = made.next else {
            break;
        };
    }
    Ok(made)
}
