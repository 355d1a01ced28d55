// What is printed of an index that was made, and the status.
ghost use Rattle.std.specs.Prelude.{◌≡◌};
ghost use Rattle.text.specs.Line.{Shows};
ghost use Rattle.cmd_index.specs.Answer.{count_line, status, keeps};

use crate::piece::Next;
use console::status::Status;
use text::line::Line;

// Ruled out: marks and records exchanged; a number cut off at the left.
pub fn count_line(marks: u64, records: u64) -> Line
    ensures { Shows result (count_line marks records) }
{
    Line::empty()
        .write(b"marks ")
        .decimal(20, marks)
        .write(b", records ")
        .decimal(20, records)
        .put(10)
}

// Whether the marks are written to their file.
// Ruled out: a file replaced by marks that are not all there.
pub fn keeps(next: Next) -> bool
    ensures { result ≡ keeps next }
{
    match next {
        Next::More => false,
        Next::Done => true,
        Next::Unknown => true,
        Next::Cut => true,
        Next::NoRoom => false,
    }
}

// Ruled out: a stop that a script takes for done; an index that is not kept taken for one with a stop.
pub fn status(next: Next) -> Status
    ensures { result ≡ status next }
{
    match next {
        Next::More => Status::Failed,
        Next::Done => Status::Done,
        Next::Unknown => Status::Found,
        Next::Cut => Status::Found,
        Next::NoRoom => Status::Failed,
    }
}
