// A trace played record by record: each word that enters SCDR is said with its number, from 0, and its noise figure.
ghost use Rattle.std.specs.Prelude.{◌≡◌, length};
ghost use Rattle.trace.specs.Trace.{answer_length};
ghost use Rattle.reception.specs.Arrival.{arrival};
ghost use Rattle.reception.specs.Tally.{with_arrival};
ghost use Rattle.text.specs.Line.{Shows};
ghost use Rattle.text.specs.Noise.{noise_line};
ghost use Rattle.console.specs.Output.{Gives};
ghost use Rattle.cmd_replay.specs.Noted.{arrival_text, Notices, Notes};
ghost use Rattle.cmd_replay.specs.Reached.{Reached};

use crate::piece::Next;
use crate::stream::{Turned, begin, goes_on, turn};
use console::output::{Out, flush, put_line};
use files::origin::Origin;
use files::system::{Sink, System};
use qsm::state::Module;
use reception::arrival::arrived;
use reception::tally::Tally;

// A run, the tally of its words, and where their lines go.
#[derive(Clone, Copy)]
pub struct Noted {
    pub turned: Turned,
    pub tally: Tally,
    pub notes: Out,
}

// Standard error, where a terminal has each line at once.
pub fn error_output(err: &Sink) -> Out {
    Out::to(err.is_terminal())
}

// The line of the word that comes after those of the tally: its number, from 0, is how many came before it.
// Ruled out: a line of no word; the number of another word.
#[tactic(auto, using(console::proofs::Lines::line_given, console::proofs::Lines::nothing))]
fn put_arrival(tally: Tally, arrival: Option<u8>, err: &Sink, out: Out, buf: &mut [u8]) -> Out
    ensures { Gives out buf.old (arrival_text tally arrival) result buf.new }
{
    match arrival {
        Some(figure) => put_line(err, out, buf, text::noise::noise_line(tally.words, figure)),
        None => out,
    }
}

// The tally past a record.
// Ruled out: a word left out or counted twice; the tally of an earlier record.
fn tallied(before: Module, after: Module, tally: Tally) -> Tally
    ensures { result ≡ with_arrival tally (arrival before after) }
{
    tally.with_arrival(arrived(before, after))
}

// What the run has said does not wait for more to be read where that may take long.
fn before_read(t: Turned, err: &Sink, notes: Out, lines: &[u8]) -> Out {
    let next = t.next;
    let Next::Read = next else {
        return notes;
    };
    if t.source.plain {
        return notes;
    }
    flush(err, notes, lines)
}

// Room for one answer, and not for two.
fn answer() -> [u8; 18]
    ensures { answer_length ≡ length result }
{
    [0u8; 18]
}

// A turn, with the word that it brought.
fn noticed<R: System>(
    rt: &R,
    from: &Origin,
    to: &Sink,
    err: &Sink,
    n: Noted,
    buf: &mut [u8],
    lines: &mut [u8],
    words: &mut [u8],
    room: &mut [u8],
) -> Noted
    ensures { Notices n (length room.old) result }
{
    let t = n.turned;
    let tally = n.tally;
    let was = t.run.state;
    let waiting = before_read(t, err, n.notes, words);
    let u = turn(rt, from, to, t, buf, lines, room);
    let is = u.run.state;
    let notes = put_arrival(tally, arrived(was, is), err, waiting, words);
    Noted {
        turned: u,
        tally: tallied(was, is, tally),
        notes,
    }
}

// Ruled out: a tally of no words where one waits in SCDR; more noisy words than words.
pub fn replay<R: System>(
    rt: &R,
    from: &Origin,
    to: &Sink,
    err: &Sink,
    lines: &mut [u8],
    words: &mut [u8],
) -> Noted
    ensures notes { Notes result.turned.run result.tally }
    ensures reached { Reached result.turned.run }
{
    let mut buf = io::large_buffer();
    let mut room = answer();
    let mut now = Noted {
        turned: begin(from, to),
        tally: Tally::none(),
        notes: error_output(err),
    };
    for _ in 0..u64::MAX {
        now = noticed(rt, from, to, err, now, &mut buf, lines, words, &mut room);
        let t = now.turned;
        let next = t.next;
        if !goes_on(next) {
            return now;
        }
    }
    now
}
