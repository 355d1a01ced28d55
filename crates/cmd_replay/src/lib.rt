// The command `replay`: a trace played on a module fresh from reset, from a file or from standard input, of any length, to a log on standard output.
#![tactic(auto)]

use console::command::Command;
use console::message::say_line;
use console::output::flush;
use console::status::{Status, worse};
use end::{put_end, status_of};
use files::command::Command as Given;
use files::message::{fail, say};
use files::origin::Origin;
use files::system::{Sink, System};
use noise::Noted;
use piece::Next;
use reception::tally::Tally;
use stream::Turned;

mod end;
mod noise;
mod piece;
mod stream;

// A refusal is said with its record's number, from 0, and its place in bytes.
fn say_stop(t: Turned) {
    let run = t.run;
    let next = t.next;
    match next {
        Next::Refused(stop) => say_line(
            b"replay",
            text::message::stop_line(stop, run.records, stream::place(t)),
        ),
        Next::Play => say(b"replay", b"trace too long\n"),
        Next::Read => say(b"replay", b"trace too long\n"),
        _ => {}
    }
}

fn played<R: System>(
    rt: &R,
    noise: bool,
    from: &Origin,
    to: &Sink,
    err: &Sink,
    lines: &mut [u8],
    words: &mut [u8],
) -> Noted {
    if noise {
        return noise::replay(rt, from, to, err, lines, words);
    }
    let notes = noise::error_output(err);
    Noted {
        turned: stream::replay(rt, from, to, lines),
        tally: Tally::none(),
        notes,
    }
}

fn replay<R: System>(rt: &R, noise: bool, account: bool, from: &Origin, name: &[u8]) -> Status {
    let output = Sink::output(rt);
    let errors = Sink::error_output(rt);
    let mut lines = io::large_buffer();
    let mut words = io::large_buffer();
    let n = played(rt, noise, from, &output, &errors, &mut lines, &mut words);
    let t = n.turned;
    let tally = n.tally;
    let next = t.next;
    if let Next::NotRead(e) = next {
        fail(b"replay", name, e);
    }
    let out = flush(&output, t.out, &lines);
    if out.failed {
        fail(b"replay", b"standard output", output.error());
    }
    let notes = flush(&errors, n.notes, &words);
    say_stop(t);
    let m = t.run.state;
    let told = put_end(noise, tally, account, m, &errors, notes, &mut words);
    let last = flush(&errors, told, &words);
    worse(out.failed | last.failed, status_of(next))
}

// Its name, what may stand on its line, what it says of itself and what it does.
struct ReplayCommand;

impl Command for ReplayCommand {
    const NAME: &'static [u8] = b"replay";

    const FIRST: &'static [u8] = b"--noise";

    const SECOND: &'static [u8] = b"--account";

    const LEAST: usize = 0;

    const MOST: usize = 1;

    const USAGE: &'static [u8] = b"usage: replay [--noise] [--account] [TRACE]\n";

    const HELP: &'static [u8] = b"\
Plays a trace on a module fresh from reset and writes its log, 18 bytes for each
record, to standard output. Without TRACE, or with -, it reads standard input.

  replay trace.bin | show        plays a trace and prints its log as text
  show --trace trace.bin         prints the trace itself

An access that is refused (1 to 4) is answered so, and the trace goes on; show --help
names these. A refusal of a record stops the trace before it. The log up to there
stands, and standard error says which record it was and where:
  5   unknown record kind
  6   record cut by the end of the trace
  10  hold that would pass 2^64 - 1 clocks since reset

With --noise standard error has a line for each word that enters SCDR, with its number
from 0 and its noise figure, and at the end how many words there were, how many of them
noisy, and the worst figure. A lost frame has none. The log is the same.
  0: noise 0
  1: noise 3
  words 2, noisy 1, worst 3

With --account standard error says at the end, or at the stop, how many frames were taken
since the last reset, how many of them were lost, and whether a word waits in SCDR. The
others were read. The log is the same; both options may be given.
  taken 3, lost 2, waiting 1

Exit status: 0 all answered, 1 the trace stopped, 2 could not be done.
";

    ghost LEAST = { 0 };

    ghost MOST = { 1 };

    fn answer<R: System>(rt: &R, from: usize, c: Given) -> Status {
        let mut name = io::buffer();
        let Some(input) = files::input::open_from(rt, from, b"replay", 0, &mut name) else {
            return Status::Failed;
        };
        replay(rt, c.option, c.second, &input.from, &name[..input.name])
    }
}

// The command, whose words begin at an argument.
pub fn run<R: System>(rt: &R, from: usize) -> Status {
    console::command::run::<ReplayCommand, R>(rt, from)
}
