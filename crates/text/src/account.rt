// The line of the account of characters.
ghost use Rattle.text.specs.Line.{Shows};
ghost use Rattle.text.specs.Account.{account_line};

use crate::line::Line;

// Frames taken and lost, and how many words wait.
// Ruled out: taken and lost exchanged; a word that waits left out; a count cut off at the left.
pub fn account_line(taken: u32, lost: u32, waiting: bool) -> Line
    ensures { Shows result (account_line taken lost waiting) }
{
    Line::empty()
        .write(b"taken ")
        .decimal(10, taken as u64)
        .write(b", lost ")
        .decimal(10, lost as u64)
        .write(b", waiting ")
        .decimal(1, u64::from(waiting))
        .put(10)
}
