// What is said of a trace that stopped: the refusal's number and words, and the place in bytes of the record before which it stopped.
ghost use Rattle.std.specs.Prelude.{◌≡◌};
ghost use Rattle.text.specs.Line.{puts, empty};
ghost use Rattle.console.specs.Stop.{numbered, stop_words, at_byte};

use text::line::Line;
use trace::Stop;

// A line that begins with the number of a refusal.
// Ruled out: the number of another refusal.
#[tactic(auto, using(text::proofs::Puts::puts_append))]
pub fn numbered(why: u8) -> Line
    ensures { result ≡ puts empty (numbered why) }
{
    Line::empty()
        .write(b"refusal ")
        .decimal(3, why as u64)
        .write(b", ")
}

// Why a trace stopped, by the refusal's number.
// Ruled out: the words of another refusal.
pub fn stop_words(line: Line, why: u8) -> Line
    ensures { result ≡ puts line (stop_words why) }
{
    match why {
        5 => line.stop_words(Stop::UnknownKind),
        6 => line.stop_words(Stop::CutRecord),
        _ => line.stop_words(Stop::ClockLimit),
    }
}

// The place, and the line's end.
// Ruled out: a place cut off at the left.
pub fn at_byte(line: Line, place: u64) -> Line
    ensures { result ≡ puts line (at_byte place) }
{
    line.write(b": record at byte ").decimal(20, place).put(10)
}
