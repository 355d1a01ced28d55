// The command `show`: a log, or with --trace a trace, as text, a line an answer or record, from a file or from standard input, of any length.
#![tactic(auto)]

use console::command::Command;
use console::message::say_line;
use console::output::flush;
use console::status::Status;
use files::command::Command as Given;
use files::message::{fail, say};
use files::origin::Origin;
use files::system::{Sink, System};
use stream::{Next, Turned};

mod item;
mod piece;
mod stream;

// What is wrong is said with the number, from 0, of its answer or record, and its place in bytes.
fn report(traces: bool, t: Turned) -> Status {
    let at = t.run;
    let next = t.next;
    match next {
        Next::Done => Status::Done,
        Next::Bad(fault) => {
            say_line(
                b"show",
                text::message::fault_line(traces, fault, at.number, stream::place(t)),
            );
            Status::Failed
        }
        Next::NotRead(_) => Status::Failed,
        Next::NotWritten => Status::Failed,
        Next::More => {
            say(b"show", b"input too long\n");
            Status::Failed
        }
    }
}

fn show<R: System>(rt: &R, traces: bool, from: &Origin, name: &[u8]) -> Status {
    let output = Sink::output(rt);
    let mut lines = io::large_buffer();
    let t = stream::show_all(rt, traces, from, &output, &mut lines);
    if let Next::NotRead(e) = t.next {
        fail(b"show", name, e);
    }
    let out = flush(&output, t.out, &lines);
    if out.failed {
        fail(b"show", b"standard output", output.error());
        return Status::Failed;
    }
    report(traces, t)
}

// Its name, what may stand on its line, what it says of itself and what it does.
struct ShowCommand;

impl Command for ShowCommand {
    const NAME: &'static [u8] = b"show";

    const FIRST: &'static [u8] = b"--trace";

    const LEAST: usize = 0;

    const MOST: usize = 1;

    const USAGE: &'static [u8] = b"usage: show [LOG]\n       show --trace [TRACE]\n";

    const HELP: &'static [u8] = b"\
Prints a log as text, a line for each answer; with --trace, a trace, a line for each
record. Without a file, or with -, it reads standard input.

  replay trace.bin | show        8: refusal 2 (unmapped), value 00000000, pins TXD=0, no request, clock 1344
  show --trace trace.bin         8: read as supervisor, width 2, unmapped at 0002

The clock is the number of clocks since reset. A log of answers without it, of kind 10, is shown too; all
answers of a log are of one kind.

The refusals of an answer, each of which has changed nothing in the module:
  1 (misshapen)       width not 1, 2 or 4; odd offset with 2 or 4; value too big for the width
  2 (unmapped)        a byte that is not in the register map
  3 (unmodelled bit)  a write sets a bit that is not modelled, BITS 1 to 7, or SPE with MSTR clear
  4 (guarded field)   a write changes a guarded field while its half of the module is on
  9 (not yours)       a driver that shares the module's queue has no right to what it asks
What is no log or no trace is reported on standard error, with its number from 0 and its
place in bytes; what came before it is printed.
";

    ghost LEAST = { 0 };

    ghost MOST = { 1 };

    fn answer<R: System>(rt: &R, from: usize, c: Given) -> Status {
        let mut name = io::buffer();
        let Some(input) = files::input::open_from(rt, from, b"show", 0, &mut name) else {
            return Status::Failed;
        };
        show(rt, c.option, &input.from, &name[..input.name])
    }
}

// The command, whose words begin at an argument.
pub fn run<R: System>(rt: &R, from: usize) -> Status {
    console::command::run::<ShowCommand, R>(rt, from)
}
