// A trace read from a mark on, up to a record.
use crate::piece::{Looked, What, look};
use console::input::{Source, more};
use files::origin::Origin;
use files::system::System;
use files::whole::seek;
use tool_index::walk::Position;

// The mark before the record, or the last one, if the trace goes on there; else its start. A mark that no trace can have is not gone to.
fn begin<R: System>(rt: &R, from: &Origin, lent: &[u64], count: usize, number: u64) -> Position {
    let mark = tool_index::index::mark_for(lent, count, number);
    if mark.possible(u64::MAX) {
        if seek(rt, from, mark.place) {
            return mark;
        }
    }
    Position::start()
}

// Reads on until the record is found or there is none; or why the trace could not be read.
pub fn find<R: System>(
    rt: &R,
    from: &Origin,
    lent: &[u64],
    count: usize,
    number: u64,
) -> std::io::Result<Looked> {
    let mut buf = io::large_buffer();
    let mut source = Source::of(from);
    let mut looked = Looked {
        at: begin(rt, from, lent, count, number),
        read: 0,
        what: What::More,
    };
    for _ in 0..u64::MAX {
        source = more(rt, from, source, &mut buf, looked.read)?;
        looked = look(looked.at, number, &buf[..source.total], source.ended);
        let What::More = looked.what else {
            break;
        };
    }
    Ok(looked)
}
