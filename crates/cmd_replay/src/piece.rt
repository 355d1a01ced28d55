// A piece of a trace played: where the run stands behind it, and what follows.
ghost use Rattle.std.specs.Prelude.{◌≡◌, cond, length};
ghost use Rattle.trace.specs.Play.{play};
ghost use Rattle.console.specs.Output.{Gives};
ghost use Rattle.cmd_replay.specs.Piece.{started, after_stop, unless_failed, Steps};

use console::output::{Out, put};
use files::pieces::counted;
use files::system::Sink;
use qsm::state::Module;
use std::io::Error;
use trace::Stop;

// The module, and the records answered.
#[derive(Clone, Copy)]
pub struct Run {
    pub state: Module,
    pub records: u64,
}

impl Run {
    // Fresh from reset, with nothing read.
    // Ruled out: a module that has seen an event; records before the first.
    pub fn start() -> Run
        ensures { result ≡ started }
    {
        Run {
            state: Module::reset(),
            records: 0,
        }
    }
}

// What follows a piece: there is more of it to play, or more is read; or the end.
#[derive(Clone, Copy)]
pub enum Next {
    Play,
    Read,
    Done,
    Refused(Stop),
    NotRead(Error),
    NotWritten,
}

// Where the run stands, the output, how many bytes of the piece were played, why they were no more, and what follows.
#[derive(Clone, Copy)]
pub struct Stepped {
    pub run: Run,
    pub out: Out,
    pub read: usize,
    pub stop: Stop,
    pub next: Next,
}

// What waits for the end of the input.
fn at_end(ended: bool, next: Next) -> Next
    ensures { result ≡ cond ended next Next.Read }
{
    if ended { next } else { Next::Read }
}

// Ruled out: a record cut by the end of a piece that is refused; a full output that stops the trace; a hold past the limit tried again.
fn after_stop(stop: Stop, ended: bool) -> Next
    ensures { result ≡ after_stop stop ended }
{
    match stop {
        Stop::End => at_end(ended, Next::Done),
        Stop::UnknownKind => Next::Refused(stop),
        Stop::CutRecord => at_end(ended, Next::Refused(stop)),
        Stop::NoRoom => Next::Play,
        Stop::ClockLimit => Next::Refused(stop),
    }
}

fn unless_failed(failed: bool, next: Next) -> Next
    ensures { result ≡ unless_failed failed next }
{
    if failed { Next::NotWritten } else { next }
}

// Plays a piece into the room that there is, and gives its answers to an output.
// Ruled out: a record played twice or left out; an answer left out of the log; a wrong number of records; a run that goes on after a failed write.
pub fn step(
    run: Run,
    to: &Sink,
    out: Out,
    buf: &mut [u8],
    piece: &[u8],
    ended: bool,
    room: &mut [u8],
) -> Stepped
    ensures steps { Steps run piece.now ended (length room.old) result }
    ensures gives { Gives out buf.old (play run.state piece.now (length room.old)).answers result.out buf.new }
{
    let m = run.state;
    let p = trace::play(m, piece, room);
    let n = p.written;
    let given = put(to, out, buf, &room[..n]);
    let state = p.state;
    let stop = p.stop;
    Stepped {
        run: Run {
            state,
            records: counted(run.records, n / trace::ANSWER_LENGTH),
        },
        out: given,
        read: p.read,
        stop,
        next: unless_failed(given.failed, after_stop(stop, ended)),
    }
}
