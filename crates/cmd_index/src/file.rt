// Marks as they are written to their file.
ghost use Rattle.std.specs.Prelude.{[], ◌++◌, ◌/◌, min, length};
ghost use Rattle.console.specs.Output.{Gives};
ghost use Rattle.cmd_index.specs.File.{file_of};

use console::output::{Out, put};
use files::system::Sink;
use tool_index::stored::mark_bytes;

// Gives the first so many marks to an output, or all that there are.
// Ruled out: a mark left out or written twice; resets for the place.
#[tactic(auto, using(crate::proofs::Filing::starts, crate::proofs::Filing::onwards))]
pub fn put_marks(to: &Sink, out: Out, buf: &mut [u8], lent: &[u64], count: usize) -> Out
    ensures { Gives out buf.old (file_of lent.now (min count (length lent.now / 2))) result buf.new }
{
    let n = count.min(lent.len() / 2);
    let mut given = out;
    for i in 0..n {
        let mark = mark_bytes(lent[2 * i], lent[2 * i + 1]);
        given = put(to, given, buf, &mark);
    }
    given
}
