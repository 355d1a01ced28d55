// A file read whole into a buffer, and one that is read on from a place.
ghost use Rattle.std.specs.Prelude.{IfSome};
ghost use Rattle.io.specs.Counts.{IsPrefixLen};

use crate::message::fail;
use crate::origin::Origin;
use crate::system::System;
use std::io::ErrorKind;

// How many bytes of a file are in the buffer, and whether it has more.
#[derive(Clone, Copy)]
pub struct Contents {
    pub count: usize,
    pub more: bool,
}

// Whether a file has ended.
fn at_end(from: &Origin) -> bool {
    let mut more = [0u8; 1];
    from.read(&mut more).is_ok_and(|n| n == 0)
}

// Reads until the buffer is full, the file ends or a read fails; how many bytes there are.
fn read_full(from: &Origin, buf: &mut [u8]) -> usize
    ensures { IsPrefixLen result buf.new }
{
    let mut have = 0;
    while have < buf.len() {
        let n = from.read(&mut buf[have..]).unwrap_or(0);
        if n == 0 {
            return have;
        }
        have += n;
    }
    have
}

// The file at a path. One that is not there has no bytes, where it may be new. What can't be opened is said.
// Ruled out: more bytes counted than the buffer has; bytes counted of a file that could not be opened.
pub fn whole<R: System>(
    rt: &R,
    program: &[u8],
    path: &[u8],
    new: bool,
    buf: &mut [u8],
) -> Option<Contents>
    ensures { IfSome result (λ c. IsPrefixLen c.count buf.new) }
{
    match Origin::open(rt, path) {
        Ok(from) => {
            let count = read_full(&from, buf);
            let more = !at_end(&from);
            Some(Contents { count, more })
        }
        Err(e) => {
            if new & (e.kind() == ErrorKind::NotFound) {
                return Some(Contents {
                    count: 0,
                    more: false,
                });
            }
            fail(program, path, e);
            None
        }
    }
}

// The last place that is gone to: no file is longer.
const LAST: u64 = 1 << 62;

// Whether the next read of a file begins at a place. Where it can't, it begins at the start: a pipe has no other place.
pub fn seek<R: System>(rt: &R, from: &Origin, place: u64) -> bool {
    if place == 0 {
        return true;
    }
    place <= LAST && from.go_to(rt, place)
}
