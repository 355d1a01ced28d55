// What a call told, as text: a line on one output, and on another what was dropped, and why, and the noise of lines.
ghost use Rattle.std.specs.Prelude.{◌≡◌, [], ◌∷◌, ◌++◌, cond, take};
ghost use Rattle.text.specs.Line.{puts, Shows};
ghost use Rattle.text.specs.Noise.{line_noise};
ghost use Rattle.console.specs.Output.{Gives};
ghost use Rattle.cmd_lines.specs.Told.{cause_words, drop_line, line_told, noise_told, words_told};

use console::output::{Out, put, put_first, put_line};
use files::system::Sink;
use text::line::Line;
use text::noise::line_noise;
use tool_lines::line::Outcome;
use tool_lines::noise::Noise;

fn cause_words(line: Line, cause: u8) -> Line
    ensures { result ≡ puts line (cause_words cause) }
{
    match cause {
        1 => line.write(b"FE"),
        2 => line.write(b"PF"),
        3 => line.write(b"NF"),
        4 => line.write(b"length"),
        _ => line.write(b"OR"),
    }
}

// Ruled out: the number of another line; another cause.
fn drop_line(number: u64, cause: u8) -> Line
    ensures { Shows result (drop_line number cause) }
{
    let start = Line::empty()
        .write(b"lines: line ")
        .decimal(20, number)
        .write(b" dropped: ");
    cause_words(start, cause).put(10)
}

#[tactic(auto, using(console::proofs::Lines::line_given))]
fn put_drop(to: &Sink, out: Out, buf: &mut [u8], number: u64, cause: u8) -> Out
    ensures { Gives out buf.old (drop_line number cause) result buf.new }
{
    put_line(to, out, buf, drop_line(number, cause))
}

// The figures of a line that ended, if they are asked for.
#[tactic(auto, using(console::proofs::Lines::line_given, console::proofs::Lines::nothing))]
fn put_noise(wanted: bool, to: &Sink, out: Out, buf: &mut [u8], number: u64, noise: Noise) -> Out
    ensures { Gives out buf.old (noise_told wanted number noise) result buf.new }
{
    if wanted {
        put_line(to, out, buf, line_noise(number, noise.total, noise.worst))
    } else {
        out
    }
}

// A line's characters and its newline.
#[tactic(auto, using(console::proofs::Giving::both))]
fn put_text(to: &Sink, out: Out, buf: &mut [u8], characters: [u8; 128], n: u8) -> Out
    ensures { Gives out buf.old (take n characters ++ (10 ∷ [])) result buf.new }
{
    let first = put_first(to, out, buf, &characters, n as usize);
    put(to, first, buf, b"\n")
}

// Ruled out: a line that was dropped; a character of the line before; a line without its end.
#[tactic(auto, using(console::proofs::Lines::nothing))]
pub fn put_told(to: &Sink, out: Out, buf: &mut [u8], told: Outcome, characters: [u8; 128]) -> Out
    ensures { Gives out buf.old (line_told told characters) result buf.new }
{
    match told {
        Outcome::Nothing => out,
        Outcome::Handed(_, n) => put_text(to, out, buf, characters, n),
        Outcome::Dropped(_, _) => out,
        Outcome::Stopped(_) => out,
        Outcome::Ended => out,
        Outcome::Refused(_) => out,
    }
}

fn put_dropped(
    wanted: bool,
    to: &Sink,
    out: Out,
    buf: &mut [u8],
    number: u64,
    cause: u8,
    noise: Noise,
) -> Out
    ensures { Gives out buf.old (drop_line number cause ++ noise_told wanted number noise) result buf.new }
{
    let dropped = put_drop(to, out, buf, number, cause);
    put_noise(wanted, to, dropped, buf, number, noise)
}

// Ruled out: a drop that is not said; the noise of the line under way.
#[tactic(auto, using(console::proofs::Lines::nothing))]
pub fn put_words(
    wanted: bool,
    to: &Sink,
    out: Out,
    buf: &mut [u8],
    told: Outcome,
    noise: Noise,
) -> Out
    ensures { Gives out buf.old (words_told wanted told noise) result buf.new }
{
    match told {
        Outcome::Nothing => out,
        Outcome::Handed(number, _) => put_noise(wanted, to, out, buf, number, noise),
        Outcome::Dropped(number, cause) => put_dropped(wanted, to, out, buf, number, cause, noise),
        Outcome::Stopped(_) => out,
        Outcome::Ended => out,
        Outcome::Refused(_) => out,
    }
}
