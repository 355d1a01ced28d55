// A file of editions, read whole. Its records are at most 64, so that a file longer than the buffer is refused by its first 1,024 bytes.
ghost use Rattle.io.specs.Counts.{IsPrefixLen};

use files::message::say;
use files::origin::Origin;
use files::pieces::fill;
use files::system::System;
use shell::message::fail;
use std::io::ErrorKind;

// Ruled out: a length past the buffer.
pub fn within(used: usize, bytes: &[u8]) -> usize
    ensures { IsPrefixLen result bytes.now }
{
    used.min(bytes.len())
}

// How many bytes a file has. A regular file comes in one piece; what does not is refused, so that nothing is taken for a shorter file.
fn whole<R: System>(rt: &R, from: &Origin, buf: &mut [u8]) -> std::io::Result<Option<usize>> {
    let first = fill(rt, from, buf, 0, false)?;
    let second = fill(rt, from, buf, first.total, first.ended)?;
    if second.total == first.total {
        Ok(Some(first.total))
    } else {
        Ok(None)
    }
}
// The file at a path, at the start of a buffer: how many bytes it has. One that is not there is empty for an edition to add. What can't be read is said.
pub fn load<R: System>(rt: &R, path: &[u8], adds: bool, buf: &mut [u8]) -> Option<usize> {
    if path.is_empty() {
        say(b"editions", b"a file's name is empty or too long\n");
        return None;
    }
    let from = match Origin::open(rt, path) {
        Ok(from) => from,
        Err(e) => {
            if adds & (e.kind() == ErrorKind::NotFound) {
                return Some(0);
            }
            fail(b"editions", path, e);
            return None;
        }
    };
    match whole(rt, &from, buf) {
        Ok(used) => {
            if used.is_none() {
                say(b"editions", b"the file came in pieces\n");
            }
            used
        }
        Err(e) => {
            fail(b"editions", path, e);
            None
        }
    }
}
