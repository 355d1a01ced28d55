// A walk over the records of a trace, each parsed and none played.
ghost use Rattle.std.specs.Prelude.{◌≡◌, [], ◌∷◌, ◌+◌, ◌<◌, ◌≤◌, ◌-◌, length};
ghost use Rattle.tool_index.specs.Records.{Item, reset_of, refusal_at};
ghost use Rattle.tool_index.specs.Walk.{start, past, walked, largest, possible, Sound, went_on};

use qsm::event::Event;
use trace::Parsed;
use trace::refusals::refusal_of;

// Where a record starts: its number, from 0, its place in bytes, and how many resets came before it.
#[derive(Clone, Copy)]
pub struct Position {
    pub number: u64,
    pub place: u64,
    pub resets: u64,
}

// Where a walk stands, and how many bytes it read.
#[derive(Clone, Copy)]
pub struct Walked {
    pub at: Position,
    pub read: usize,
}

// One for a reset, which no other record is.
fn reset_of(e: Event) -> u64
    ensures { result ≡ reset_of e }
{
    match e {
        Event::Reset => 1,
        Event::Hold(_, _, _) => 0,
        Event::Access(_) => 0,
    }
}

impl Position {
    // Ruled out: a number from 1; a reset before the first record.
    pub fn start() -> Position
        ensures { result ≡ start }
    {
        Position {
            number: 0,
            place: 0,
            resets: 0,
        }
    }

    // Past one record.
    #[tactic(auto, unfolding(crate::specs::Records::bytes_of, crate::specs::Records::resets_in))]
    fn past(self, e: Event, size: usize) -> Position
        requires { (self.number < largest) × (self.place + size ≤ largest) × (self.resets < largest) }
        ensures { result ≡ past self (record { event = e; size = size } ∷ []) }
    {
        Position {
            number: self.number + 1,
            place: self.place + size as u64,
            resets: self.resets + reset_of(e),
        }
    }

    // Whether a trace can have this position, at a place not past the last.
    // Ruled out: more resets than records; more records than bytes.
    pub fn possible(self, last: u64) -> bool
        ensures { result ≡ possible self last }
    {
        (self.resets <= self.number) & ((self.number <= self.place) & (self.place <= last))
    }
}

// Up to record `until`, or as far as there are records.
pub(crate) fn walk(from: Position, rest: &[u8], until: u64) -> Walked
    requires { Sound from (length rest.now) }
    ensures { result ≡ walked from rest.now until }
{
    let mut at = from;
    let mut read = 0;
    while at.number < until {
        let p = trace::parse(&rest[read..]);
        let Parsed::Record(e, size) = p else {
            return Walked { at, read };
        };
        at = at.past(e, size);
        read += size;
    }
    Walked { at, read }
}

// A walk that goes on through a piece of a trace.
// Ruled out: a record cut by the piece's end walked over; a walk past the record asked for.
pub fn go_on(from: Position, piece: &[u8], until: u64) -> Walked
    ensures { result ≡ went_on from piece.now until }
{
    let length = piece.len() as u64;
    if from.possible(u64::MAX - length) {
        return walk(from, piece, until);
    }
    Walked { at: from, read: 0 }
}

// What stops a walk at the start of a rest: 5 or 6, or 0 where nothing is left.
pub(crate) fn refusal_at(rest: &[u8]) -> u8
    ensures { result ≡ refusal_at rest.now }
{
    if rest.len() == 0 {
        return 0;
    }
    refusal_of(trace::parse(rest))
}
