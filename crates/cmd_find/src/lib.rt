// The command `find`: a record of a trace by its number, with an index of the trace or of a beginning of it.
#![tactic(auto)]

use answer::{missing_line, put_found, status};
use console::command::Command;
use console::message::say_line;
use console::output::{Out, flush};
use console::status::{Status, worse};
use files::command::{Command as Given, named_word};
use files::message::{fail, say};
use files::origin::Origin;
use files::system::{Sink, System};
use marks::read_marks;
use piece::{Looked, What};
use qsm::event::Event;
use text::number::parse_number;
use tool_index::stored::numbers;
use tool_index::walk::Position;

mod answer;
mod claims;
pub mod marks;
mod piece;
mod stream;

// The record on standard output; whether it could not be written, which is said.
fn print<R: System>(rt: &R, number: u64, at: Position, kind: u8, e: Event) -> bool {
    let output = Sink::output(rt);
    let mut buf = io::buffer();
    let out = put_found(
        &output,
        Out::standard(&output),
        &mut buf,
        number,
        at,
        kind,
        e,
    );
    let end = flush(&output, out, &buf);
    if end.failed {
        fail(b"find", b"standard output", output.error());
    }
    end.failed
}

// Tells what stands where the record was looked for.
fn report<R: System>(rt: &R, number: u64, l: Looked) -> Status {
    let what = l.what;
    let at = l.at;
    match what {
        What::Found(kind, e) => worse(print(rt, number, at, kind, e), status(what)),
        What::Missing => {
            say_line(b"find", missing_line(number));
            status(what)
        }
        What::More => {
            say(b"find", b"trace too long\n");
            status(what)
        }
    }
}

fn look<R: System>(
    rt: &R,
    from: &Origin,
    name: &[u8],
    lent: &[u64],
    count: usize,
    number: u64,
) -> Status {
    match stream::find(rt, from, lent, count, number) {
        Ok(looked) => report(rt, number, looked),
        Err(e) => {
            fail(b"find", name, e);
            Status::Failed
        }
    }
}

// The trace that the first word of the command names.
fn open<R: System>(rt: &R, from: usize, lent: &[u64], count: usize, number: u64) -> Status {
    let mut name = io::buffer();
    let Some(input) = files::input::open_from(rt, from, b"find", 0, &mut name) else {
        return Status::Failed;
    };
    look(rt, &input.from, &name[..input.name], lent, count, number)
}

// The marks of the file that the second word names.
fn by_marks<R: System>(rt: &R, from: usize, number: u64) -> Status {
    let mut path = io::buffer();
    let n = named_word(rt, from, 1, &mut path);
    let mut lent = numbers();
    let Some(count) = read_marks(rt, b"find", &path[..n], false, &mut lent) else {
        return Status::Failed;
    };
    open(rt, from, &lent, count, number)
}

fn wanted<R: System>(rt: &R, from: usize) -> Option<u64> {
    let mut word = io::buffer();
    let n = named_word(rt, from, 2, &mut word);
    parse_number(&word[..n])
}

// Its name, what may stand on its line, what it says of itself and what it does.
struct FindCommand;

impl Command for FindCommand {
    const NAME: &'static [u8] = b"find";

    const LEAST: usize = 3;

    const MOST: usize = 3;

    const USAGE: &'static [u8] = b"usage: find TRACE INDEX NUMBER\n";

    const HELP: &'static [u8] = b"\
Prints where a record of a trace starts, in bytes, how many resets came before it, and the record itself. Records are
numbered from 0. INDEX is a file that index made of this trace or of a beginning of it: the trace is read from the mark
before the record on, or from the last mark.

  find day.trace day.index 270     place 1026, resets 54
                                   270: reset

A record that is not there is refused on standard error: refusal 2. With an index of another trace the answer has no meaning.

Exit status: 0 the record is printed, 1 there is no such record, 2 could not be done.
";

    ghost LEAST = { 3 };

    ghost MOST = { 3 };

    fn answer<R: System>(rt: &R, from: usize, _: Given) -> Status {
        let Some(number) = wanted(rt, from) else {
            say(b"find", b"NUMBER is no decimal number\n");
            return Status::Failed;
        };
        by_marks(rt, from, number)
    }
}

// The command, whose words begin at an argument.
pub fn run<R: System>(rt: &R, from: usize) -> Status {
    console::command::run::<FindCommand, R>(rt, from)
}
