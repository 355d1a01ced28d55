// The index of a trace: built, extended, or made piece by piece, in numbers that the caller lends.
ghost use Rattle.std.specs.Prelude.{◌≡◌, ◌+◌, ◌-◌, ◌*◌, ◌/◌, ◌≤◌, min, ◌++◌, length, take, drop};
ghost use Rattle.tool_index.specs.Records.{records};
ghost use Rattle.tool_index.specs.Walk.{past, largest, Sound};
ghost use Rattle.tool_index.specs.Marks.{spacing, most, marks_for, marks_from, room, held, mark_for, report, indexed_from, built, extended_from, extended, gone_on};

use crate::walk::{Position, Walked, refusal_at, walk};

// A mark is made for every so many records, and there are at most so many marks.
pub const SPACING: u64 = 256;

pub const MOST: usize = 4096;

// The marks of a trace and, where they were refused, those that it needs; its records; where they end, and how many resets are among them; what stopped
// them, 5, 6 or 0; and the refusal, 7 or 0.
#[repr(C)]
#[derive(Clone, Copy)]
pub struct Indexed {
    pub marks: usize,
    pub records: u64,
    pub place: u64,
    pub resets: u64,
    pub stop: u8,
    pub refusal: u8,
}

// The marks that lent numbers have room for.
fn room(lent: usize) -> usize
    ensures { result ≡ min (lent / 2) most }
{
    (lent / 2).min(MOST)
}

// How many marks so many records have.
fn marks_for(n: u64) -> u64
    requires { n ≤ largest }
    ensures { result ≡ marks_for n }
{
    n.div_ceil(SPACING)
}

// How many of them are new where some are there.
fn fresh(all: u64, count: usize) -> usize
    ensures { result ≡ all - count }
{
    all.saturating_sub(count as u64) as usize
}

// The marks from number `count` on, `fresh` of them, in a walk from a position.
fn write(from: Position, rest: &[u8], lent: &mut [u64], count: usize, fresh: usize)
    requires sound { Sound from (length rest.now) }
    requires fresh_bound { (count + fresh ≤ most) × (2 * (count + fresh) ≤ length lent.old) }
    ensures { lent.new ≡ take (2 * count) lent.old ++ (marks_from from rest.now count fresh ++ drop (2 * (count + fresh)) lent.old) }
{
    let mut at = from;
    let mut read = 0;
    for j in 0..fresh {
        let k = count + j;
        let w = walk(at, &rest[read..], SPACING * (k as u64));
        let next = w.at;
        lent[2 * k] = next.place;
        lent[2 * k + 1] = next.resets;
        at = next;
        read += w.read;
    }
}

fn report(end: Position, marks: usize, stop: u8, refusal: u8) -> Indexed
    ensures { result ≡ record { marks = marks; records = end.number; place = end.place; resets = end.resets; stop = stop; refusal = refusal } }
{
    Indexed {
        marks,
        records: end.number,
        place: end.place,
        resets: end.resets,
        stop,
        refusal,
    }
}

// A walk from a position to the end, with so many marks there. They are counted first, and written only if there is room.
fn index_from(from: Position, rest: &[u8], lent: &mut [u64], count: usize) -> Indexed
    requires { Sound from (length rest.now) × (count ≤ room lent.old) }
    ensures { (lent.new ≡ (indexed_from from rest.now lent.old count).list) × (result ≡ (indexed_from from rest.now lent.old count).given) }
{
    let w = walk(from, rest, u64::MAX);
    let end = w.at;
    let read = w.read;
    let stop = refusal_at(&rest[read..]);
    let new = fresh(marks_for(end.number), count);
    let needed = count + new;
    if needed > room(lent.len()) {
        return report(end, needed, stop, 7);
    }
    write(from, rest, lent, count, new);
    report(end, needed, stop, 0)
}

// The index of a trace, built afresh.
// Ruled out: a mark for a record that is cut; a reset counted before itself; a number changed by a refusal.
#[tactic(auto, unfolding(crate::specs::Marks::built))]
pub fn build(trace: &[u8], lent: &mut [u64]) -> Indexed
    ensures { (lent.new ≡ (built trace.now lent.old).list) × (result ≡ (built trace.now lent.old).given) }
{
    index_from(Position::start(), trace, lent, 0)
}

// The mark for record n among so many of the lent ones, or the last of them.
// Ruled out: the mark behind the record; a mark past those that are there.
pub fn mark_for(lent: &[u64], count: usize, n: u64) -> Position
    ensures { result ≡ mark_for lent.now (held lent.now count) n }
{
    let there = count.min(room(lent.len()));
    if there == 0 {
        return Position::start();
    }
    let k = ((n / SPACING) as usize).min(there - 1);
    let i = 2 * k;
    Position {
        number: SPACING * (k as u64),
        place: lent[i],
        resets: lent[i + 1],
    }
}

// The index of a trace that has grown: the walk goes on from the last of so many marks.
// Ruled out: an old mark written again; a new mark left out; marks past those lent.
pub fn extend(trace: &[u8], lent: &mut [u64], count: usize) -> Indexed
    ensures { (lent.new ≡ (extended trace.now lent.old count).list) × (result ≡ (extended trace.now lent.old count).given) }
{
    let there = count.min(room(lent.len()));
    let last = mark_for(lent, count, u64::MAX);
    let length = trace.len() as u64;
    if last.possible(length) {
        let at = last.place as usize;
        return index_from(last, &trace[at..], lent, there);
    }
    index_from(Position::start(), trace, lent, 0)
}

// The same for a piece of a trace, from the position that the piece before it left; bytes of a record that it cuts come again with the next.
// Ruled out: a mark made twice at a piece's end; a place counted from the piece's start.
pub fn go_on(from: Position, piece: &[u8], lent: &mut [u64], count: usize) -> Indexed
    ensures { (lent.new ≡ (gone_on from piece.now lent.old count).list) × (result ≡ (gone_on from piece.now lent.old count).given) }
{
    let there = count.min(room(lent.len()));
    let length = piece.len() as u64;
    if from.possible(u64::MAX - length) {
        return index_from(from, piece, lent, there);
    }
    report(from, there, 0, 2)
}
