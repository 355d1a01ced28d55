// The command `lines`: replays a trace with polling put in, and writes the lines that come of it; from a file or from standard input, of any length.
#![tactic(auto)]

ghost use Rattle.std.specs.Prelude.{◌≡◌, min};

use console::command::Command;
use console::message::say_line;
use console::output::{Out, flush};
use console::status::Status;
use ending::{status, stop_line};
use files::command::Command as Given;
use files::message::{fail, say, say_of};
use files::origin::Origin;
use files::system::{Sink, System};
use piece::Wanted;
use std::io::Error;
use tool_lines::line::Outcome;

mod calls;
mod ending;
mod piece;
mod stream;
mod told;

// What is said of the end, at a place of the trace in bytes.
fn say_end(told: Outcome, place: u64) {
    match told {
        Outcome::Ended => {}
        Outcome::Stopped(why) => say_line(b"lines", stop_line(why, place)),
        Outcome::Refused(_) => say(b"lines", b"refusal 1, the period is not 1 to 65535\n"),
        Outcome::Nothing => say(b"lines", b"trace too long\n"),
        Outcome::Handed(_, _) => say(b"lines", b"trace too long\n"),
        Outcome::Dropped(_, _) => say(b"lines", b"trace too long\n"),
    }
}

// Writes what waits; whether it could not be written, which is said.
fn write_rest(to: &Sink, out: Out, err: &Sink, notes: Out, lines: &[u8], words: &[u8]) -> bool {
    let said = flush(err, notes, words);
    let written = flush(to, out, lines);
    if written.failed {
        fail(b"lines", b"standard output", to.error());
    }
    written.failed | said.failed
}

fn play<R: System>(rt: &R, wanted: Wanted, from: &Origin, name: &[u8]) -> Status {
    let output = Sink::output(rt);
    let errors = Sink::error_output(rt);
    let mut lines = io::large_buffer();
    let mut words = io::buffer();
    let e = stream::play_all(rt, wanted, from, &output, &errors, &mut lines, &mut words);
    if let Some(why) = e.unread {
        fail(b"lines", name, why);
    }
    let unwritten = write_rest(&output, e.lines, &errors, e.words, &lines, &words);
    if e.unread.is_some() | unwritten {
        return Status::Failed;
    }
    let told = e.told;
    say_end(told, e.place);
    status(told, e.dropped)
}

// A period that is too large for any call stays too large.
fn at_most(k: u64) -> u32
    ensures { result ≡ min k 65536 }
{
    k.min(65536) as u32
}

// The trace that the second word of the command names.
fn open<R: System>(rt: &R, from: usize, wanted: Wanted) -> Status {
    let mut name = io::buffer();
    let Some(input) = files::input::open_from(rt, from, b"lines", 1, &mut name) else {
        return Status::Failed;
    };
    play(rt, wanted, &input.from, &name[..input.name])
}

// The period that the first word names.
fn by_period<R: System>(rt: &R, from: usize, noise: bool) -> Status {
    let mut word = io::buffer();
    let n = files::command::named_word(rt, from, 0, &mut word);
    let Some(k) = text::number::parse_number(&word[..n]) else {
        say_of(b"lines", b"no number: ", &word[..n]);
        return Status::Failed;
    };
    open(
        rt,
        from,
        Wanted {
            period: at_most(k),
            noise,
        },
    )
}

// Its name, what may stand on its line, what it says of itself and what it does.
struct LinesCommand;

impl Command for LinesCommand {
    const NAME: &'static [u8] = b"lines";

    const FIRST: &'static [u8] = b"--noise";

    const LEAST: usize = 1;

    const MOST: usize = 2;

    const USAGE: &'static [u8] = b"usage: lines [--noise] PERIOD [TRACE]\n";

    const HELP: &'static [u8] = b"\
Replays a trace on a module fresh from reset, with polling put in: after every PERIOD
clocks (1 to 65535) since the start or a reset, status is read, and data if RDRF or OR
showed. Delivered words, their low 7 bits, are gathered into lines that end with a
newline. A line of up to 128 characters is written to standard output. Without TRACE, or
with -, it reads standard input.

  lines 10485 trace.bin          polled every 500 us at 20.97 MHz

A line is never handed over with a character lost or damaged: it is dropped, and standard
error has its number, from 0 over all lines that ended, and the first cause:
  FE, PF, NF   a word came with a framing error, a parity error or noise
  length       more than 128 characters before the newline
  OR           an overrun: a character was lost

With --noise standard error has for each line that ended, dropped or not, its number and
the noise figures of its words, the newline among them: the total and the worst. A line
that is handed over has none above 0.
  line 2: noise total 5, worst 3

A line that is not finished at the end, at a stop or at a reset is forgotten. A stop is said
on standard error, with its place in bytes:
  3   an access of the trace touches SCSR or SCDR, which polling is to read
  5   unknown record kind
  6   record cut by the end of the trace
  10  hold that would pass 2^64 - 1 clocks since reset

Exit status: 0 no line was dropped, 1 a line was dropped or the trace stopped, 2 could not be done.
";

    ghost LEAST = { 1 };

    ghost MOST = { 2 };

    fn answer<R: System>(rt: &R, from: usize, c: Given) -> Status {
        by_period(rt, from, c.option)
    }
}

// The command, whose words begin at an argument.
pub fn run<R: System>(rt: &R, from: usize) -> Status {
    console::command::run::<LinesCommand, R>(rt, from)
}
