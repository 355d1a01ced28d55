// A trace walked piece by piece up to a record, and what stands there.
ghost use Rattle.std.specs.Prelude.{◌≡◌};
ghost use Rattle.trace.specs.Trace.{byte_at, parsed};
ghost use Rattle.cmd_find.specs.Piece.{record_there, at_cut, standing, looked};

use qsm::event::Event;
use tool_index::walk::Position;
use trace::Parsed;

// More bytes are needed to tell; there is no such record; or the record, by its kind and its event.
#[derive(Clone, Copy)]
pub enum What {
    More,
    Missing,
    Found(u8, Event),
}

// Where a walk has come, how many bytes of the piece it passed, and what stands there.
#[derive(Clone, Copy)]
pub struct Looked {
    pub at: Position,
    pub read: usize,
    pub what: What,
}

fn record_there(there: bool, kind: u8, e: Event) -> What
    ensures { result ≡ record_there there kind e }
{
    if there {
        What::Found(kind, e)
    } else {
        What::Missing
    }
}

// Where the piece ends.
fn at_cut(ended: bool) -> What
    ensures { result ≡ at_cut ended }
{
    if ended { What::Missing } else { What::More }
}

// What stands where a walk has come: at the record's number, or before it where no record can be passed.
#[tactic(auto, using(trace::proofs::Playing::record_within))]
fn standing(there: bool, rest: &[u8], ended: bool) -> What
    ensures { result ≡ standing there (byte_at rest.now 0) ended (parsed rest.now) }
{
    let p = trace::parse(rest);
    match p {
        Parsed::Record(e, _) => record_there(there, rest[0], e),
        Parsed::Unknown => What::Missing,
        Parsed::Cut => at_cut(ended),
    }
}

// Walks through a piece up to a record, from the position that the piece before it left.
// Ruled out: the record before or after it; a record that is cut found; one missed because a piece cuts it.
#[tactic(auto, using(crate::proofs::Pieces::read_within, crate::proofs::Pieces::looks))]
pub fn look(from: Position, number: u64, bytes: &[u8], ended: bool) -> Looked
    ensures { result ≡ looked from number bytes.now ended }
{
    let w = tool_index::walk::go_on(from, bytes, number);
    let at = w.at;
    let read = w.read;
    Looked {
        at,
        read,
        what: standing(at.number == number, &bytes[read..], ended),
    }
}
