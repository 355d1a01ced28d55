// A piece of each of two logs, of whole answers but the last: what they add to the tally, and what follows them. The kind is that of the first byte,
// for every piece.
ghost use Rattle.std.specs.Prelude.{◌≡◌, true, ◌||◌};
ghost use Rattle.tool_compare.specs.Kind.{mixed};
ghost use Rattle.tool_compare.specs.Compare.{compared_as, in_numbers};
ghost use Rattle.cmd_compare.specs.Piece.{letter_of, kind_with, named, first_or_second, finished, ended, followed, pieced};

use crate::tally::{Tally, answers_in, tallied};
use files::pieces::counted;
use tool_compare::Compared;
use tool_compare::kinds::{first_other, kind_of, mixed, stride_of};

// One of the two logs.
#[derive(Clone, Copy)]
pub enum Log {
    First,
    Second,
}

impl From<Log> for u8 {
    ghost from_gives = { λ log letter. letter ≡ letter_of log };

    // Its letter, A or B.
    fn from(log: Log) -> u8 {
        match log {
            Log::First => b'A',
            Log::Second => b'B',
        }
    }
}

// An answer that does not begin with the logs' kind: which log's, its number and its place in bytes, what it begins with, and the kind.
#[derive(Clone, Copy)]
pub struct Other {
    pub log: Log,
    pub answer: u64,
    pub place: u64,
    pub byte: u8,
    pub kind: u8,
}

// What follows: more pieces; the end of both logs; a refusal; or a log that can't be read, or an output that can't be written.
#[derive(Clone, Copy)]
pub enum End {
    More,
    Done,
    Refused(u8),
    OtherKind(Other),
    NotRead(Log),
    NotWritten,
}

#[derive(Clone, Copy)]
pub struct Pieced {
    pub tally: Tally,
    pub count: u64,
    pub end: End,
}

// The first answer of a piece that does not begin with the kind, behind so many bytes of its log.
#[tactic(auto, unfolding(crate::specs::Piece::named))]
fn named(which: Log, kind: u8, before: u64, log: &[u8]) -> Other
    requires { mixed kind log.now ≡ true }
    ensures { result ≡ named which kind before log.now }
{
    let k = first_other(kind, log);
    let at = k * stride_of(kind);
    Other {
        log: which,
        answer: counted(answers_in(kind, before), k),
        place: counted(before, at),
        byte: log[at],
        kind,
    }
}

// That of the first log, or else of the second.
#[tactic(auto, unfolding(crate::specs::Piece::first_or_second))]
fn first_or_second(kind: u8, t: Tally, a: &[u8], b: &[u8]) -> Other
    requires { mixed kind a.now || mixed kind b.now ≡ true }
    ensures { result ≡ first_or_second kind t a.now b.now }
{
    if mixed(kind, a) {
        return named(Log::First, kind, t.first, a);
    }
    named(Log::Second, kind, t.second, b)
}

// The kind of the logs: that of the pieces before, or of the first.
// Ruled out: a kind of a later piece; the kind of the second log where the first has one.
pub fn kind_with(before: u8, a: &[u8], b: &[u8]) -> u8
    ensures { result ≡ kind_with before a.now b.now }
{
    if before == 0 { kind_of(a, b) } else { before }
}

// Past the last pieces. A log that is cut is refused at the ends of both, for 5 comes before 6.
fn finished(cut: bool) -> End
    ensures { result ≡ finished cut }
{
    if cut { End::Refused(6) } else { End::Done }
}

fn ended(over: bool, cut: bool) -> End
    ensures { result ≡ ended over cut }
{
    if over { finished(cut) } else { End::More }
}

// What the comparison of two pieces makes of the tally.
#[tactic(auto, unfolding(crate::specs::Piece::followed))]
fn followed(t: Tally, kind: u8, a: usize, b: usize, r: Compared) -> Pieced
    ensures { result ≡ followed t kind a b r }
{
    let next = tallied(t, kind, a, b, r);
    Pieced {
        tally: next,
        count: r.count,
        end: ended((a == 0) & (b == 0), next.cut),
    }
}

fn stopped(t: Tally, end: End) -> Pieced
    ensures { result ≡ record { tally = t; count = 0; end = end } }
{
    Pieced {
        tally: t,
        count: 0,
        end,
    }
}

// The next pieces of both logs, of a kind. The list has the answers that differ.
// Ruled out: a cut log refused before an answer of another kind is looked for; answers of a refused piece counted.
pub fn piece<'a>(t: Tally, kind: u8, a: &'a [u8], b: &'a [u8], list: &mut [u64]) -> Pieced
    ensures value { result ≡ pieced t kind a.now b.now (in_numbers (compared_as kind a.now b.now list.old)) }
    ensures list_after { list.new ≡ (compared_as kind a.now b.now list.old).list }
{
    let r = tool_compare::compare_numbers_as(kind, a, b, list);
    if r.refusal == 5 {
        return stopped(t, End::OtherKind(first_or_second(kind, t, a, b)));
    }
    if r.refusal == 7 {
        return stopped(t, End::Refused(7));
    }
    followed(t, kind, a.len(), b.len(), r)
}
