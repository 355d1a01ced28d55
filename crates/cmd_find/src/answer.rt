// What is printed of a record that was looked for, and the status.
ghost use Rattle.std.specs.Prelude.{◌≡◌};
ghost use Rattle.text.specs.Line.{Shows};
ghost use Rattle.console.specs.Output.{Gives};
ghost use Rattle.cmd_find.specs.Answer.{place_line, missing_line, found_text, status};

use crate::piece::What;
use console::output::{Out, put_line};
use console::status::Status;
use files::system::Sink;
use qsm::event::Event;
use text::line::Line;
use text::record::record_line;
use tool_index::walk::Position;

// Where a record starts, and how many resets came before it.
// Ruled out: place and resets exchanged; a number cut off at the left.
fn place_line(place: u64, resets: u64) -> Line
    ensures { Shows result (place_line place resets) }
{
    Line::empty()
        .write(b"place ")
        .decimal(20, place)
        .write(b", resets ")
        .decimal(20, resets)
        .put(10)
}

// Ruled out: another refusal; another record's number.
pub fn missing_line(number: u64) -> Line
    ensures { Shows result (missing_line number) }
{
    Line::empty()
        .write(b"refusal 2, no record ")
        .decimal(20, number)
        .put(10)
}

// Ruled out: the record without its place; the line of another record.
pub fn put_found(
    to: &Sink,
    out: Out,
    buf: &mut [u8],
    number: u64,
    at: Position,
    kind: u8,
    e: Event,
) -> Out
    ensures { Gives out buf.old (found_text number at kind e) result buf.new }
{
    let placed = put_line(to, out, buf, place_line(at.place, at.resets));
    put_line(to, placed, buf, record_line(number, kind, e))
}

// The status of what stands where the record was looked for.
// Ruled out: a record that is not there taken for found.
pub fn status(what: What) -> Status
    ensures { result ≡ status what }
{
    match what {
        What::Found(_, _) => Status::Done,
        What::Missing => Status::Found,
        What::More => Status::Failed,
    }
}
