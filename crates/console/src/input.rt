// What a command reads: piece by piece into a buffer that it lends, each piece behind the bytes that are left of the one before.
ghost use Rattle.std.specs.Prelude.{IfOk};
ghost use Rattle.io.specs.Counts.{IsPrefixLen};
ghost use Rattle.console.specs.Input.{Reads, Keeps};

use files::origin::Origin;
use files::pieces::{carry, counted, fill};
use files::system::System;

// Where an input stands.
#[derive(Clone, Copy)]
pub struct Source {
    // It has places, as a plain file: a read of it does not wait for somebody.
    pub plain: bool,
    // Bytes in the buffer.
    pub total: usize,
    // Bytes of the input before the buffer's first.
    pub place: u64,
    pub ended: bool,
}

impl Source {
    // At the start of an input, with nothing read.
    pub fn of(from: &Origin) -> Source {
        Source {
            plain: from.is_plain(),
            total: 0,
            place: 0,
            ended: false,
        }
    }
}

// Carries the bytes of the buffer from a place on to its start, and reads once behind them; or why they could not be read.
// Ruled out: a byte that is left lost or overwritten, or lost by a read that fails; more bytes reported than the buffer has.
pub fn more<R: System>(
    rt: &R,
    from: &Origin,
    source: Source,
    buf: &mut [u8],
    at: usize,
) -> std::io::Result<Source>
    ensures prefix_len { IfOk result (λ s. IsPrefixLen s.total buf.new) }
    ensures reads { IfOk result (λ s. Reads source buf.old at s buf.new) }
    ensures kept { Keeps source buf.old at buf.new }
{
    let have = carry(buf, at, source.total);
    let f = fill(rt, from, buf, have, source.ended)?;
    Ok(Source {
        plain: source.plain,
        total: f.total,
        place: counted(source.place, at),
        ended: f.ended,
    })
}
