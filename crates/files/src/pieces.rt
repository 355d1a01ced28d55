// An input of any length in a buffer of fixed length: each piece is read behind the bytes that wait, and what it leaves over is carried to the start.
ghost use Rattle.std.specs.Prelude.{◌≡◌, take, IfOk};
ghost use Rattle.io.specs.Counts.{IsPrefixLen};
ghost use Rattle.files.specs.Pieces.{counted, carried, left, Fills};

use crate::origin::Origin;
use crate::progress::tell;
use crate::system::System;

// How many bytes the buffer now has, and whether the input has ended.
#[derive(Clone, Copy)]
pub struct Filled {
    pub total: usize,
    pub ended: bool,
}

// One read behind the bytes that wait, unless the input has ended or there is no room for it; or why it could not be read.
// Ruled out: a byte that waits overwritten; more bytes reported than the buffer has.
pub fn fill<R: System>(
    rt: &R,
    from: &Origin,
    buf: &mut [u8],
    have: usize,
    ended: bool,
) -> std::io::Result<Filled>
    ensures prefix_len { IfOk result (λ f. IsPrefixLen f.total buf.new) }
    ensures fills { IfOk result (λ f. Fills have buf.old f buf.new) }
    ensures kept { take have buf.new ≡ take have buf.old }
{
    if ended | (have >= buf.len()) {
        return Ok(Filled {
            total: have.min(buf.len()),
            ended,
        });
    }
    let n = from.read(&mut buf[have..])?;
    if n > 0 {
        tell(rt, from, n);
    }
    Ok(Filled {
        total: have + n,
        ended: n == 0,
    })
}

// Carries the bytes from one place up to another to the start of the buffer; how many there are.
// Ruled out: bytes that overwrite each other; a byte lost or carried twice.
pub fn carry(buf: &mut [u8], from: usize, total: usize) -> usize
    ensures value { result ≡ left buf.old from total }
    ensures buf_after { buf.new ≡ carried buf.old from total }
{
    let end = total.min(buf.len());
    let start = from.min(end);
    buf.copy_within(start..end, 0);
    end - start
}

// A count of bytes or records, which stays at the largest number.
// Ruled out: a count that begins anew; one that is a byte short.
pub fn counted(count: u64, more: usize) -> u64
    ensures { result ≡ counted count more }
{
    count.saturating_add(more as u64)
}
