// The calls on a piece, one after the other, and what they tell.
ghost use Rattle.std.specs.Prelude.{◌≡◌};
ghost use Rattle.cmd_lines.specs.Piece.{Turns, done, Plays};

use crate::calls::{Run, over};
use crate::told::{put_told, put_words};
use console::output::Out;
use files::system::Sink;
use tool_lines::line::Outcome;

// What is asked for: the clocks from poll to poll, and whether the noise of lines is.
#[derive(Clone, Copy)]
pub struct Wanted {
    pub period: u32,
    pub noise: bool,
}

// Where a run stands after a piece, the output of lines, and that of words.
#[derive(Clone, Copy)]
pub struct Went {
    pub run: Run,
    pub lines: Out,
    pub words: Out,
}

// One call, and what it tells.
fn turn(
    wanted: Wanted,
    to: &Sink,
    err: &Sink,
    w: Went,
    buf: &mut [u8],
    said: &mut [u8],
    bytes: &[u8],
    last: bool,
) -> Went
    ensures { Turns wanted bytes.now last w buf.old said.old result buf.new said.new }
{
    let before = w.run;
    let run = before.again(bytes, last, wanted.period);
    let told = run.told;
    let state = run.state;
    let line = state.line;
    let characters = line.characters;
    let noise = state.noise;
    let heard = noise.last;
    let lines = put_told(to, w.lines, buf, told, characters);
    let words = put_words(wanted.noise, err, w.words, said, told, heard);
    Went { run, lines, words }
}

// Whether a piece has no more to tell, or it could not be written.
fn done(told: Outcome, lines: Out, words: Out) -> bool
    ensures { result ≡ done told lines words }
{
    over(told) | (lines.failed | words.failed)
}

// Calls over and over, until a piece has no more to tell or a write failed.
// Ruled out: a line left out, written twice or out of order; a line handed over that was dropped; a drop that is not said.
#[tactic(auto, using(crate::proofs::Playing::starts, crate::proofs::Playing::onwards))]
pub fn play(
    wanted: Wanted,
    to: &Sink,
    err: &Sink,
    w: Went,
    buf: &mut [u8],
    said: &mut [u8],
    bytes: &[u8],
    last: bool,
) -> Went
    ensures { Plays wanted bytes.now last w buf.old said.old result buf.new said.new }
{
    let mut now = w;
    for _ in 0..u64::MAX {
        now = turn(wanted, to, err, now, buf, said, bytes, last);
        let run = now.run;
        let told = run.told;
        if done(told, now.lines, now.words) {
            return now;
        }
    }
    now
}
