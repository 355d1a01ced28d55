// The marks that a file has.
ghost use Rattle.std.specs.Prelude.{◌≡◌, IfOk};
ghost use Rattle.io.specs.Counts.{IsPrefixLen};
ghost use Rattle.cmd_find.specs.Marks.{are_marks};

use files::message::{fail, say_of};
use files::origin::Origin;
use files::pieces::{Filled, fill};
use files::system::System;
use std::io::ErrorKind;
use tool_index::stored::{BYTES, decode};

// Whether so many bytes are marks, and all of them.
// Ruled out: a mark that is cut; a file longer than any index taken for its beginning.
fn are_marks(bytes: usize, all: bool) -> bool
    ensures { result ≡ are_marks bytes all }
{
    if all {
        return bytes % BYTES == 0;
    }
    false
}

// Reads until the file ends, a read fails or the buffer is full.
fn read_all<R: System>(rt: &R, from: &Origin, buf: &mut [u8]) -> std::io::Result<Filled>
    ensures { IfOk result (λ f. IsPrefixLen f.total buf.new) }
{
    let mut f = Filled {
        total: 0,
        ended: false,
    };
    for _ in 0..u64::MAX {
        f = fill(rt, from, buf, f.total, false)?;
        if f.ended | (f.total >= buf.len()) {
            break;
        }
    }
    Ok(f)
}

// Whether a file has ended, or can't be read on.
fn at_end<R: System>(rt: &R, from: &Origin) -> bool {
    let mut one = [0u8; 1];
    match fill(rt, from, &mut one, 0, false) {
        Ok(f) => f.ended,
        Err(_) => true,
    }
}

// How many marks an open file has, which are put at the start of lent numbers. What can't be read and what is no file of marks is said.
fn decode_all<R: System>(
    rt: &R,
    program: &[u8],
    path: &[u8],
    from: &Origin,
    lent: &mut [u64],
) -> Option<usize> {
    let mut stored = io::large_buffer();
    let f = match read_all(rt, from, &mut stored) {
        Ok(f) => f,
        Err(e) => {
            fail(program, path, e);
            return None;
        }
    };
    let n = f.total;
    if are_marks(n, f.ended | at_end(rt, from)) {
        return Some(decode(&stored[..n], lent));
    }
    say_of(program, b"no file of marks: ", path);
    None
}

// How many marks the file at a path has, which are put at the start of lent numbers. A file that is not there has none, where it may be new. What can't
// be read and what is no file of marks is said.
pub fn read_marks<R: System>(
    rt: &R,
    program: &[u8],
    path: &[u8],
    new: bool,
    lent: &mut [u64],
) -> Option<usize> {
    match Origin::open(rt, path) {
        Ok(from) => decode_all(rt, program, path, &from, lent),
        Err(e) => {
            if new & (e.kind() == ErrorKind::NotFound) {
                return Some(0);
            }
            fail(program, path, e);
            None
        }
    }
}
