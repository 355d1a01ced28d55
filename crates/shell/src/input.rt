// The file that a command reads.
ghost use Rattle.std.specs.Prelude.{IfSome};
ghost use Rattle.io.specs.Counts.{IsPrefixLen};

use crate::message::Escaped;
use files::input::{Input, open_by, standard};
use files::system::System;

// Opens the file that the argument at a place names; standard input where there is none, or it is a minus sign. What messages call it is put at the start of
// `name`. Where it can't be opened, that is said.
// Ruled out: a name longer than its buffer.
pub fn open_at<R: System>(
    rt: &R,
    program: &[u8],
    place: Option<usize>,
    name: &mut [u8],
) -> Option<Input>
    ensures { IfSome result (λ i. IsPrefixLen i.name name.new) }
{
    match place {
        Some(at) => open_by(rt, Escaped, program, at, false, name),
        None => Some(standard(rt, name)),
    }
}
