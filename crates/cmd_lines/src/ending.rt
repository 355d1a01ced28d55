// How a replay ended: what is said of it, and the status.
ghost use Rattle.std.specs.Prelude.{◌≡◌};
ghost use Rattle.text.specs.Line.{puts, Shows};
ghost use Rattle.tool_lines.specs.Stop.{number_of};
ghost use Rattle.cmd_lines.specs.Ending.{stop_words, stop_line, ended, status};

use console::status::Status;
use console::stop::{at_byte, numbered};
use text::line::Line;
use tool_lines::line::Outcome;
use tool_lines::stop::Stop;

// Why a replay stopped: an access that polling is to make, or as any trace does.
fn why_stopped(line: Line, why: Stop) -> Line
    ensures { result ≡ puts line (stop_words (number_of why)) }
{
    match why {
        Stop::Access => line.write(b"an access touches SCSR or SCDR"),
        Stop::UnknownKind => line.stop_words(trace::Stop::UnknownKind),
        Stop::CutRecord => line.stop_words(trace::Stop::CutRecord),
        Stop::ClockLimit => line.stop_words(trace::Stop::ClockLimit),
    }
}

// The same with its number, and the place in bytes of the record before which it stopped.
// Ruled out: the number of another refusal; the words of another.
pub fn stop_line(why: Stop, place: u64) -> Line
    ensures { Shows result (stop_line (number_of why) place) }
{
    at_byte(why_stopped(numbered(u8::from(why)), why), place)
}

fn ended(dropped: bool) -> Status
    ensures { result ≡ ended dropped }
{
    if dropped { Status::Found } else { Status::Done }
}

// The status of a replay, by what its last call told and whether a line was dropped.
// Ruled out: a dropped line, or a stop, that a script takes for done; a wrong period that it takes for a drop.
pub fn status(told: Outcome, dropped: bool) -> Status
    ensures { result ≡ status told dropped }
{
    match told {
        Outcome::Nothing => Status::Failed,
        Outcome::Handed(_, _) => Status::Failed,
        Outcome::Dropped(_, _) => Status::Failed,
        Outcome::Stopped(_) => Status::Found,
        Outcome::Ended => ended(dropped),
        Outcome::Refused(_) => Status::Failed,
    }
}
