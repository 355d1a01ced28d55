// The command `index`: makes an index of a trace, or extends one: a file of marks, which is replaced whole or not at all.
#![tactic(auto)]

use answer::{count_line, keeps, status};
use cmd_find::marks::read_marks;
use console::command::Command;
use console::message::say_line;
use console::output::{Out, flush, put_line};
use console::status::{Status, worse};
use files::command::{Command as Given, named_word};
use files::message::{fail, say};
use files::origin::Origin;
use files::system::{Sink, System};
use piece::{Made, Next};
use save::save;
use text::message::stop_line;
use tool_index::stored::numbers;
use trace::Stop;

mod answer;
mod file;
mod piece;
mod save;
mod stream;

// What ended the index before the trace's end, or why there is none.
fn say_end(m: Made) {
    let next = m.next;
    let at = m.at;
    match next {
        Next::Done => {}
        Next::Unknown => say_line(b"index", stop_line(Stop::UnknownKind, at.number, at.place)),
        Next::Cut => say_line(b"index", stop_line(Stop::CutRecord, at.number, at.place)),
        Next::NoRoom => say(
            b"index",
            b"refusal 7, the trace has more than 1,048,576 records: the index is left as it was\n",
        ),
        Next::More => say(b"index", b"trace too long\n"),
    }
}

// How many marks and records there are, on standard output; whether it could not be written, which is said.
fn print<R: System>(rt: &R, marks: u64, records: u64) -> bool {
    let output = Sink::output(rt);
    let mut buf = io::buffer();
    let out = put_line(
        &output,
        Out::standard(&output),
        &mut buf,
        count_line(marks, records),
    );
    let end = flush(&output, out, &buf);
    if end.failed {
        fail(b"index", b"standard output", output.error());
    }
    end.failed
}

// Whether the marks could not be kept, or it could not be said.
fn keep<R: System>(rt: &R, path: &[u8], lent: &[u64], m: Made) -> bool {
    let at = m.at;
    if save(rt, path, lent, m.marks) {
        return print(rt, m.marks as u64, at.number);
    }
    true
}

fn report<R: System>(rt: &R, path: &[u8], lent: &[u64], m: Made) -> Status {
    let next = m.next;
    say_end(m);
    if keeps(next) {
        return worse(keep(rt, path, lent, m), status(next));
    }
    status(next)
}

fn extend<R: System>(
    rt: &R,
    from: &Origin,
    name: &[u8],
    path: &[u8],
    lent: &mut [u64],
    count: usize,
) -> Status {
    match stream::index(rt, from, lent, count) {
        Ok(made) => report(rt, path, lent, made),
        Err(e) => {
            fail(b"index", name, e);
            Status::Failed
        }
    }
}

// The trace that the first word of the command names.
fn open<R: System>(rt: &R, from: usize, path: &[u8], lent: &mut [u64], count: usize) -> Status {
    let mut name = io::buffer();
    let Some(input) = files::input::open_from(rt, from, b"index", 0, &mut name) else {
        return Status::Failed;
    };
    extend(rt, &input.from, &name[..input.name], path, lent, count)
}

// The marks of the file that the second word names, if there is one, and then those of the trace.
fn by_marks<R: System>(rt: &R, from: usize) -> Status {
    let mut path = io::buffer();
    let n = named_word(rt, from, 1, &mut path);
    let mut lent = numbers();
    let Some(count) = read_marks(rt, b"index", &path[..n], true, &mut lent) else {
        return Status::Failed;
    };
    open(rt, from, &path[..n], &mut lent, count)
}

// Its name, what may stand on its line, what it says of itself and what it does.
struct IndexCommand;

impl Command for IndexCommand {
    const NAME: &'static [u8] = b"index";

    const LEAST: usize = 2;

    const MOST: usize = 2;

    const USAGE: &'static [u8] = b"usage: index TRACE INDEX\n";

    const HELP: &'static [u8] = b"\
Makes an index of a trace, of any length: a file that says where records 0, 256, 512 and so on start and how many
resets came before each, in sixteen bytes a mark. An index that is there already, of this trace or of a beginning of it,
is extended from its last mark on. The file is replaced whole or not at all.

  index day.trace day.index      marks 2, records 300

The trace is indexed up to a record of unknown kind (refusal 5) or one that is cut (6), which is said on standard error.
An index has at most 4,096 marks; where a trace needs more, the file is left as it was (refusal 7).

Exit status: 0 the whole trace is indexed, 1 it is indexed up to a stop, 2 could not be done.
";

    ghost LEAST = { 2 };

    ghost MOST = { 2 };

    fn answer<R: System>(rt: &R, from: usize, _: Given) -> Status {
        by_marks(rt, from)
    }
}

// The command, whose words begin at an argument.
pub fn run<R: System>(rt: &R, from: usize) -> Status {
    console::command::run::<IndexCommand, R>(rt, from)
}
