// Looking up a record by its number, with marks of the trace or of a beginning of it.
ghost use Rattle.std.specs.Prelude.{◌≡◌, ◌≤◌, length};
ghost use Rattle.tool_index.specs.Walk.{Sound};
ghost use Rattle.tool_index.specs.Find.{is_record, found_from, from, looked_up};

use crate::index::mark_for;
use crate::walk::{Position, walk};
use trace::Parsed;

// Where a record starts, how many resets came before it, how many records were walked over, and the refusal, 2 or 0.
#[repr(C)]
#[derive(Clone, Copy)]
pub struct Found {
    pub place: u64,
    pub resets: u64,
    pub walked: u64,
    pub refusal: u8,
}

fn is_record(p: Parsed) -> bool
    ensures { result ≡ is_record p }
{
    match p {
        Parsed::Record(_, _) => true,
        Parsed::Unknown => false,
        Parsed::Cut => false,
    }
}

// Record n, looked for from a position on.
fn look(p: Position, rest: &[u8], n: u64) -> Found
    requires { Sound p (length rest.now) × (p.number ≤ n) }
    ensures { result ≡ found_from p rest.now n }
{
    let w = walk(p, rest, n);
    let q = w.at;
    let read = w.read;
    let walked = q.number - p.number;
    let there = is_record(trace::parse(&rest[read..]));
    if (q.number == n) & there {
        return Found {
            place: q.place,
            resets: q.resets,
            walked,
            refusal: 0,
        };
    }
    Found {
        place: 0,
        resets: 0,
        walked,
        refusal: 2,
    }
}

// The position, if a trace so long can have it; else the start.
fn from(p: Position, long: u64) -> Position
    ensures { result ≡ from p long }
{
    if p.possible(long) {
        return p;
    }
    Position::start()
}

// Ruled out: the mark's place for a record behind it; the record after it; a record that is cut found.
#[tactic(auto, using(crate::proofs::Walking::lent), unfolding(crate::specs::Find::looked_up))]
pub fn find<'a>(trace: &'a [u8], lent: &'a [u64], count: usize, number: u64) -> Found
    ensures { result ≡ looked_up trace.now lent.now count number }
{
    let length = trace.len() as u64;
    let p = from(mark_for(lent, count, number), length);
    let at = p.place as usize;
    look(p, &trace[at..], number)
}
