// How a drawing ended: what is said of it, and the status.
ghost use Rattle.std.specs.Prelude.{◌≡◌};
ghost use Rattle.text.specs.Line.{Shows};
ghost use Rattle.tool_wave.specs.Stop.{number_of};
ghost use Rattle.cmd_wave.specs.Ending.{wants, stop_line, status};

use console::status::Status;
use console::stop::{at_byte, numbered, stop_words};
use text::line::Line;
use tool_wave::{Step, Stop};

// Whether more bytes could change what was told: at the end of a piece, or before a record that its end cuts.
// Ruled out: a record taken for cut because a piece ends in it.
pub fn wants(o: Result<Option<Step>, Stop>) -> bool
    ensures { result ≡ wants o }
{
    match o {
        Err(Stop::End | Stop::CutRecord) => true,
        _ => false,
    }
}

// Why a trace stopped, with the refusal's number, and the place in bytes of the record before which it stopped.
// Ruled out: the number of another refusal; the words of another.
pub fn stop_line(why: Stop, place: u64) -> Line
    ensures { Shows result (stop_line (number_of why) place) }
{
    let number = u8::from(why);
    at_byte(stop_words(numbered(number), number), place)
}

// Ruled out: a stop that a script takes for done.
pub fn status(told: Result<Option<Step>, Stop>) -> Status
    ensures { result ≡ status told }
{
    match told {
        Ok(_) => Status::Failed,
        Err(Stop::End) => Status::Done,
        Err(_) => Status::Found,
    }
}
