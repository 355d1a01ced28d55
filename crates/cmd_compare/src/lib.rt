// The command `compare`: which answers of two logs differ, in which fields, and what one has more. It takes files of any length and reads them twice:
// once for the verdict, once to show the differing answers.
#![tactic(auto)]

use console::command::Command;
use console::output::{Out, flush, put_line};
use console::status::{Status, worse};
use files::command::Command as Given;
use files::message::{fail, say};
use files::origin::Origin;
use files::system::{Sink, System};
use piece::{End, Log};
use stream::pass;
use verdict::{status_of, status_shown, to_show, verdict_line};

mod claims;
mod piece;
mod show;
mod step;
mod stream;
mod tally;
mod verdict;

// What a pass could not do.
fn say_end(end: End, a: &Origin, b: &Origin) {
    match end {
        End::NotRead(Log::First) => fail(b"compare", b"A", a.error()),
        End::NotRead(Log::Second) => fail(b"compare", b"B", b.error()),
        End::More => say(b"compare", b"a log is too long\n"),
        _ => {}
    }
}

// What the second pass could not do: the first came to the ends of both logs.
fn say_again(end: End, a: &Origin, b: &Origin) {
    match end {
        End::Refused(_) => say(b"compare", b"a log has changed since it was first read\n"),
        End::OtherKind(_) => say(b"compare", b"a log has changed since it was first read\n"),
        _ => say_end(end, a, b),
    }
}

// Both files are read from their starts; a pipe has none.
fn rewound(a: &Origin, b: &Origin) -> std::io::Result<()> {
    a.rewind()?;
    b.rewind()
}

// The last write, and the status that it leaves.
fn finish(to: &Sink, out: Out, lines: &[u8], s: Status) -> Status {
    let done = flush(to, out, lines);
    if done.failed {
        fail(b"compare", b"standard output", to.error());
    }
    worse(done.failed, s)
}

fn show_all<R: System>(
    rt: &R,
    a: &Origin,
    b: &Origin,
    to: &Sink,
    out: Out,
    lines: &mut [u8],
    s: Status,
) -> Status {
    if let Err(e) = rewound(a, b) {
        fail(b"compare", b"a log, read again", e);
        return finish(to, out, lines, Status::Failed);
    }
    let t = pass(rt, true, a, b, to, out, lines);
    let end = t.end;
    say_again(end, a, b);
    finish(to, t.out, lines, status_shown(s, end))
}

fn compare<R: System>(rt: &R, a: &Origin, b: &Origin) -> Status {
    let output = Sink::output(rt);
    let mut lines = io::large_buffer();
    let t = pass(rt, false, a, b, &output, Out::standard(&output), &mut lines);
    let end = t.end;
    let tally = t.tally;
    say_end(end, a, b);
    let s = status_of(tally, end);
    let out = put_line(&output, t.out, &mut lines, verdict_line(tally, end));
    if to_show(tally, end) {
        return show_all(rt, a, b, &output, out, &mut lines, s);
    }
    finish(&output, out, &lines, s)
}

// Two files that are open.
fn opened<R: System>(rt: &R, a: &Origin, b: &Origin) -> Status {
    if a.is_standard() | b.is_standard() {
        say(
            b"compare",
            b"it reads its files twice, so it can't take standard input\n",
        );
        return Status::Failed;
    }
    if rewound(a, b).is_err() {
        say(
            b"compare",
            b"it reads its files twice, so it can't take a pipe\n",
        );
        return Status::Failed;
    }
    compare(rt, a, b)
}

fn files_of<R: System>(rt: &R, from: usize) -> Status {
    let mut name = io::buffer();
    let a = files::input::open_from(rt, from, b"compare", 0, &mut name);
    let b = files::input::open_from(rt, from, b"compare", 1, &mut name);
    let Some(first) = a else {
        return Status::Failed;
    };
    let Some(second) = b else {
        return Status::Failed;
    };
    opened(rt, &first.from, &second.from)
}

// Its name, what may stand on its line, what it says of itself and what it does.
struct CompareCommand;

impl Command for CompareCommand {
    const NAME: &'static [u8] = b"compare";

    const LEAST: usize = 2;

    const MOST: usize = 2;

    const USAGE: &'static [u8] = b"usage: compare A B\n";

    const HELP: &'static [u8] = b"\
Compares two logs, A and B, of any length. Its first word is equal, differ or refused. Then, for each answer that differs,
a line for each field of it that does, with its value in both logs:

  compare old.log new.log        differ: 1 of 104 answers; B has 5 more
                                 12: refusal: A ok, B refusal 2 (unmapped)

Answers are numbered from 0. A byte that no answer of the model has is shown in hexadecimal, behind the word hex.
Logs of kind 10, without a clock, and of kind 11 are compared, each with its own: refused are two logs in which not every answer
begins with the same one (refusal 5, with the place of the first that does not), and a log whose length is no multiple of
an answer's, 10 or 18 (refusal 6): it ends within an answer. To compare an archived log of kind 10 with one of kind 11, play its trace anew.

Exit status: 0 equal, 1 differ, 2 refused or could not be done.
";

    ghost LEAST = { 2 };

    ghost MOST = { 2 };

    fn answer<R: System>(rt: &R, from: usize, _: Given) -> Status {
        files_of(rt, from)
    }
}

// The command, whose words begin at an argument.
pub fn run<R: System>(rt: &R, from: usize) -> Status {
    console::command::run::<CompareCommand, R>(rt, from)
}
