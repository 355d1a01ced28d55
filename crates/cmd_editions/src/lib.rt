// The command `editions`: keeps register settings by edition in a file; adds, withdraws, gives and lists them. The file is replaced whole or not at all.
#![tactic(auto)]

use command::Verb;
use console::output::{Out, flush, put, put_line};
use console::status::{Status, worse};
use files::command::argument;
use files::message::say;
use files::system::{Sink, System};
use shell::arguments::Seen;
use shell::message::fail;
use text::line::Line;
use tool_editions::{Changed, Given};

mod command;
mod file;
mod show;

fn usage() -> Status {
    say(
        b"editions",
        b"\
usage: editions FILE add NUMBER SCCR0 SCCR1 SPCR0 SPCR1
       editions FILE withdraw NUMBER
       editions [--trace] FILE get NUMBER
       editions [--trace] FILE newest
       editions FILE list
",
    );
    Status::Failed
}

// Once all was given to standard output.
fn ended(to: &Sink, out: Out, lines: &[u8], status: Status) -> Status {
    let now = flush(to, out, lines);
    if now.failed {
        fail(b"editions", b"standard output", to.error());
    }
    worse(now.failed, status)
}

fn print(to: &Sink, line: Line, status: Status) -> Status {
    let mut lines = io::buffer();
    let out = put_line(to, Out::standard(to), &mut lines, line);
    ended(to, out, &lines, status)
}

// Whether the file at a path is replaced by one with these bytes. Where it is not, that is said.
fn replaced<R: System>(rt: &R, path: &[u8], bytes: &[u8]) -> bool {
    let mut place = io::buffer();
    let mut beside = io::buffer();
    let mut waiting = io::buffer();
    let Some(t) = shell::target::begin(rt, b"editions", path, &mut place, &mut beside) else {
        return false;
    };
    let to = &t.sink;
    let given = put(to, Out::to(false), &mut waiting, bytes);
    let out = flush(to, given, &waiting);
    if out.failed {
        fail(b"editions", path, to.error());
    }
    shell::target::finish(rt, b"editions", t, &place, &beside, !out.failed)
}

// What a change answered: the file is replaced if it was let.
fn changed<R: System>(
    rt: &R,
    to: &Sink,
    path: &[u8],
    buf: &[u8],
    c: Changed,
    adding: bool,
    number: u16,
) -> Status {
    if c.refusal != 0 {
        return print(to, show::refused_line(c.refusal, adding), Status::Found);
    }
    let used = file::within(c.used, buf);
    if replaced(rt, path, &buf[..used]) {
        return print(to, show::done_line(adding, number), Status::Done);
    }
    Status::Failed
}

fn print_writes(to: &Sink, bytes: [u8; 32]) -> Status {
    let mut lines = io::buffer();
    let out = put(to, Out::standard(to), &mut lines, &bytes);
    ended(to, out, &lines, Status::Done)
}

// The edition asked for: a line, or its four writes as a trace.
fn given(to: &Sink, g: Given, traces: bool) -> Status {
    if g.refusal != 0 {
        return print(to, show::refused_line(g.refusal, false), Status::Found);
    }
    let e = g.edition;
    if traces {
        return print_writes(to, show::writes(e));
    }
    print(to, show::edition_line(e, false), Status::Done)
}

fn list(to: &Sink, buf: &[u8]) -> Status {
    let g = tool_editions::newest(buf, buf.len());
    if (g.refusal == 0) | (g.refusal == 8) {
        let mut lines = io::buffer();
        let out = show::list(to, Out::standard(to), &mut lines, buf);
        return ended(to, out, &lines, Status::Done);
    }
    print(to, show::refused_line(g.refusal, false), Status::Found)
}

fn list_first(to: &Sink, buf: &[u8], used: usize) -> Status {
    let n = file::within(used, buf);
    list(to, &buf[..n])
}

fn done<R: System>(
    rt: &R,
    verb: Verb,
    traces: bool,
    path: &[u8],
    buf: &mut [u8],
    used: usize,
) -> Status {
    let output = Sink::output(rt);
    let to = &output;
    match verb {
        Verb::Add(e) => {
            let c = tool_editions::add(buf, used, e);
            changed(rt, to, path, buf, c, true, e.number)
        }
        Verb::Withdraw(n) => {
            let c = tool_editions::withdraw(buf, used, n);
            changed(rt, to, path, buf, c, false, n)
        }
        Verb::Get(n) => given(to, tool_editions::get(buf, used, n), traces),
        Verb::Newest => given(to, tool_editions::newest(buf, used), traces),
        Verb::List => list_first(to, buf, used),
    }
}

fn asked<R: System>(rt: &R, verb: Verb, traces: bool, place: usize) -> Status {
    let mut path = io::buffer();
    let n = argument(rt, place, &mut path);
    let mut buf = [0u8; 1024];
    match file::load(rt, &path[..n], matches!(verb, Verb::Add(_)), &mut buf) {
        Some(used) => done(rt, verb, traces, &path[..n], &mut buf, used),
        None => Status::Failed,
    }
}

fn by_words<R: System>(rt: &R, seen: Seen) -> Status {
    match (command::asked(rt, seen), seen.places[0]) {
        (Some(verb), Some(place)) => asked(rt, verb, seen.flags[0].is_some(), place),
        _ => usage(),
    }
}

// The command, whose words begin at an argument.
pub fn run<R: System>(rt: &R, from: usize) -> Status {
    let read = shell::line::read_line(
        rt,
        from,
        b"editions",
        &[b"--trace"],
        &[],
        2,
        7,
        b"usage: editions [--trace] FILE add|withdraw|get|newest|list ..\n",
        b"\
Keeps register settings by edition in a file. Numbers are decimal, registers four hexadecimal digits.

  editions FILE add NUMBER SCCR0 SCCR1 SPCR0 SPCR1   adds an edition, above all that were added before
  editions FILE withdraw NUMBER                      withdraws one
  editions [--trace] FILE get NUMBER                 prints one that is not withdrawn
  editions [--trace] FILE newest                     prints the newest that is not withdrawn
  editions FILE list                                 prints all that were added

  editions mill.set add 3 0004 000C 8104 0404        added: edition 3
  editions mill.set newest                           edition 3: SCCR0 0004, SCCR1 000C, SPCR0 8104, SPCR1 0404
  editions --trace mill.set get 3 | replay | show    the four writes, played on a module after a reset

The first word is added, withdrawn, edition or refused. The refusals, each of which leaves the file as it was:
  3  a module after a reset would refuse one of the four writes: an unmodelled bit, BITS 1 to 7, or SPE with MSTR clear
  5  the file has a record of unknown kind, or one that would have been refused
  6  the file ends within a record
  7  there are 64 records
  8  an edition to add that is not above the last; one to withdraw or to print that is not there, or withdrawn
A file that is not there is made by add.
Exit status: 0 done; 1 refused; 2 not understood, or the file can't be read or written.
",
    );
    match read {
        Ok(seen) => by_words(rt, seen),
        Err(why) => Status::from(why),
    }
}
