// The command `plan`: set-points and a window in, the quickest plan out, as text or as a trace for `replay`.
#![tactic(auto)]

ghost use Rattle.std.specs.Prelude.{◌≤◌};

use console::message::say_line;
use console::output::{Out, flush};
use console::status::{Status, worse};
use files::message::say;
use files::system::{Sink, System, failure};
use points::Unread;
use read::Misread;
use shell::message::fail;
use text::line::Line;
use tool_plan::{Plan, SetPoints};
use wanted::Wanted;

mod points;
mod read;
mod show;
mod wanted;

fn say_misread(m: Misread) {
    let place = Line::empty()
        .write(b"line ")
        .decimal(20, m.line)
        .write(b", column ")
        .decimal(20, m.column)
        .write(b": ");
    say_line(b"plan", show::with_fault(place, m.fault));
}

fn chosen(b: bool, weight: u16) -> u16
    ensures { result ≤ weight }
{
    if b { weight } else { 0 }
}

// The proposal with what the converter asks.
fn changed(w: Wanted, points: SetPoints, window: u64) -> Option<Plan> {
    let plan = tool_plan::quickest::plan(points, window)?;
    let spbr = (w.spbr % 256) as u16;
    let dsckl = (w.dsckl % 128) as u16;
    let spcr0 = plan.spcr0 / 1024 * 1024 + chosen(w.cpol, 512) + chosen(w.cpha, 256) + spbr;
    let spcr1 = plan.spcr1 / 32768 * 32768 + dsckl * 256 + plan.spcr1 % 256;
    tool_plan::quickest::revise(points, window, plan, spcr0, spcr1)
}

// Why there is no plan: with no end to the window there would be one, or there is none at all.
fn refuse(w: Wanted, points: SetPoints) -> Status {
    if let Some(plan) = changed(w, points, u64::MAX) {
        let line = Line::empty()
            .write(b"refusal 11, no plan: it takes ")
            .decimal(20, plan.clock)
            .write(b" clocks\n");
        say_line(b"plan", line);
        return Status::Found;
    }
    if points.count == 0 {
        say(b"plan", b"refusal 11, no plan: there is no set-point\n");
        return Status::Found;
    }
    say(
        b"plan",
        b"refusal 11, no plan: counts of bits other than 8 differ\n",
    );
    Status::Found
}

// The plan on an output, as text or as a trace.
fn put(w: Wanted, points: SetPoints, plan: Plan, to: &Sink) -> Out {
    let mut buf = io::large_buffer();
    let out = Out::to(false);
    if w.trace {
        let given = show::trace(to, out, &mut buf, plan);
        return flush(to, given, &buf);
    }
    let given = show::show(to, out, &mut buf, points, plan, w.window);
    flush(to, given, &buf)
}

// Into what a path names.
fn write_to<R: System>(rt: &R, w: Wanted, points: SetPoints, plan: Plan, path: &[u8]) -> Status {
    let mut place = io::buffer();
    let mut beside = io::buffer();
    let Some(t) = shell::target::begin(rt, b"plan", path, &mut place, &mut beside) else {
        return Status::Failed;
    };
    let out = put(w, points, plan, &t.sink);
    if out.failed {
        fail(b"plan", path, t.sink.error());
    }
    let replaced = shell::target::finish(rt, b"plan", t, &place, &beside, !out.failed);
    worse(!replaced, Status::Done)
}

fn write_at<R: System>(
    rt: &R,
    w: Wanted,
    points: SetPoints,
    plan: Plan,
    output: Option<usize>,
) -> Status {
    let Some(at) = output else {
        let to = Sink::output(rt);
        let out = put(w, points, plan, &to);
        if out.failed {
            fail(b"plan", b"standard output", to.error());
        }
        return worse(out.failed, Status::Done);
    };
    let mut path = io::buffer();
    match rt.arg(at, &mut path) {
        Ok(n) => write_to(rt, w, points, plan, &path[..n]),
        Err(e) => {
            fail(b"plan", b"a file's name", failure(e));
            Status::Failed
        }
    }
}

fn answer<R: System>(rt: &R, w: Wanted, points: SetPoints, output: Option<usize>) -> Status {
    match changed(w, points, w.window) {
        Some(plan) => write_at(rt, w, points, plan, output),
        None => refuse(w, points),
    }
}

fn asked<R: System>(rt: &R, w: Wanted, input: Option<usize>, output: Option<usize>) -> Status {
    let mut name = io::buffer();
    let Some(i) = shell::input::open_at(rt, b"plan", input, &mut name) else {
        return Status::Failed;
    };
    let read = points::read(rt, &i.from);
    let n = i.name;
    // It is closed before an output is opened, which may be the same FIFO.
    drop(i);
    match read {
        Ok(points) => return answer(rt, w, points, output),
        Err(Unread::Failed(e)) => fail(b"plan", &name[..n], e),
        Err(Unread::Long) => say(b"plan", b"input too long\n"),
        Err(Unread::Misread(m)) => say_misread(m),
    }
    Status::Failed
}

// The command, whose words begin at an argument.
pub fn run<R: System>(rt: &R, from: usize) -> Status {
    let read = shell::line::read_line(
        rt,
        from,
        b"plan",
        &[b"--cpol", b"--cpha", b"--trace"],
        &[b"--spbr", b"--dsckl", b"-o"],
        1,
        2,
        b"usage: plan [--cpol] [--cpha] [--spbr MIN] [--dsckl MIN] [--trace] [-o FILE] WINDOW [SETPOINTS]\n",
        b"\
Packs up to 16 set-points into the queue so that the last edge falls within WINDOW system clocks, and prints the plan. A set-point is a
line of three words: chip select (0 to 15), bits (8 to 16), and the word in hexadecimal. What follows a # is a comment. Without a file, or
with -, standard input is read.

  plan 95 points.txt             clock 95, window 95, slack 0
                                 entries 0 to 1, SPCR0 B002, SPCR1 8100, SPCR2 0100
                                 entry 0: select 3, 8 bits, word 005A, command 13

It is the quickest plan there is: SPBR 2 and a delay of one clock before SCK. What a converter asks makes it slower: --cpol and --cpha set
CPOL and CPHA, --spbr (2 to 255) and --dsckl (1 to 127) give the least SPBR and DSCKL. The clock is then worked out anew and the plan checked again.
With --trace the plan is written as a trace that makes MOSI and the PCS outputs, loads the plan and runs it: plan --trace 95 points.txt | replay.
Refused (11): no set-point, counts of bits other than 8 that differ, a window too short. A line that is no set-point is told by its place.
Exit status: 0 there is a plan; 1 there is none; 2 the set-points can't be read or are not understood, or the plan can't be written.
",
    );
    let seen = match read {
        Ok(seen) => seen,
        Err(why) => return Status::from(why),
    };
    let Some(w) = wanted::asked_of(rt, seen) else {
        return Status::Failed;
    };
    asked(rt, w, seen.places[1], seen.values[2])
}
