// A file of marks, replaced whole or not at all.
use crate::file::put_marks;
use console::output::{Out, flush};
use files::message::fail;
use files::output::{begin, finish};
use files::system::System;

// Replaces a file of marks. Where it can't, that is said.
pub fn save<R: System>(rt: &R, path: &[u8], lent: &[u64], count: usize) -> bool {
    let mut name = io::buffer();
    let Some(new) = begin(rt, b"index", path, &mut name) else {
        return false;
    };
    let n = new.name;
    let sink = new.sink;
    let mut buf = io::large_buffer();
    let out = put_marks(&sink, Out::to(false), &mut buf, lent, count);
    let end = flush(&sink, out, &buf);
    if end.failed {
        fail(b"index", &name[..n], sink.error());
    }
    finish(rt, b"index", sink, &name[..n], path, !end.failed)
}
