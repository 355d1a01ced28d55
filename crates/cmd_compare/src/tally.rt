// Two logs counted piece by piece: the bytes of each, the answers that differ, and what is said of them at the end.
ghost use Rattle.std.specs.Prelude.{◌≡◌};
ghost use Rattle.cmd_compare.specs.Tally.{nothing, tallied, answers_in, answers_of, more_of};

use files::pieces::counted;
use tool_compare::Compared;

// What has been compared so far: the logs' kind, or 0 before the first piece; whether a log ended within an answer; how many answers differ;
// and the bytes of each log.
#[derive(Clone, Copy)]
pub struct Tally {
    pub kind: u8,
    pub cut: bool,
    pub differing: u64,
    pub first: u64,
    pub second: u64,
}

// Ruled out: a kind before the first piece; answers that differ already.
pub fn nothing() -> Tally
    ensures { result ≡ nothing }
{
    Tally {
        kind: 0,
        cut: false,
        differing: 0,
        first: 0,
        second: 0,
    }
}

// A piece more, of a and of b bytes.
// Ruled out: the bytes of the first log counted as the second's; a count of the piece alone; a cut log forgotten.
pub fn tallied(t: Tally, kind: u8, a: usize, b: usize, r: Compared) -> Tally
    ensures { result ≡ tallied t kind a b r }
{
    Tally {
        kind,
        cut: t.cut | (r.refusal == 6),
        differing: counted(t.differing, r.count as usize),
        first: counted(t.first, a),
        second: counted(t.second, b),
    }
}

// How many answers of a kind so many bytes are.
// Ruled out: ten bytes for both kinds; one more for a cut answer.
pub fn answers_in(kind: u8, bytes: u64) -> u64
    ensures { result ≡ answers_in kind bytes }
{
    if kind == 17 { bytes / 18 } else { bytes / 10 }
}

// The answers that both logs have.
// Ruled out: the answers of the longer log; bytes for answers.
pub fn answers_of(t: Tally) -> u64
    ensures { result ≡ answers_of t }
{
    answers_in(t.kind, t.first.min(t.second))
}

// How many answers a log has more than the other, by their bytes.
// Ruled out: bytes for answers; a surplus of the shorter log.
pub fn more_of(kind: u8, mine: u64, other: u64) -> u64
    ensures { result ≡ more_of kind mine other }
{
    answers_in(kind, mine.saturating_sub(other))
}
