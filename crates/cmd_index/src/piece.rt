// A piece of a trace indexed, and what follows it.
ghost use Rattle.std.specs.Prelude.{◌≡◌, ◌-◌, min};
ghost use Rattle.tool_index.specs.Marks.{gone_on};
ghost use Rattle.tool_index.specs.Laws.{left};
ghost use Rattle.cmd_index.specs.Piece.{at_end, going_on, decided, made};

use tool_index::index::Indexed;
use tool_index::walk::Position;

#[derive(Clone, Copy)]
pub enum Next {
    More,
    Done,
    Unknown,
    Cut,
    NoRoom,
}

// Where the next piece begins, the marks so far, the bytes of the piece that were passed, and what follows.
#[derive(Clone, Copy)]
pub struct Made {
    pub at: Position,
    pub marks: usize,
    pub read: usize,
    pub next: Next,
}

// At the end of the input: its last record is cut or not.
fn at_end(stop: u8) -> Next
    ensures { result ≡ at_end stop }
{
    if stop == 6 { Next::Cut } else { Next::Done }
}

fn going_on(stop: u8, ended: bool) -> Next
    ensures { result ≡ going_on stop ended }
{
    if stop == 5 {
        return Next::Unknown;
    }
    if ended {
        return at_end(stop);
    }
    Next::More
}

// What follows a piece. A record that is cut by its end comes again with the next one.
// Ruled out: a record taken for cut because a piece ends in it; marks kept that are not all there.
fn decided(refusal: u8, stop: u8, ended: bool) -> Next
    ensures { result ≡ decided refusal stop ended }
{
    if refusal == 0 {
        going_on(stop, ended)
    } else {
        Next::NoRoom
    }
}

// Where a piece left off.
fn left(i: Indexed) -> Position
    ensures { result ≡ left i }
{
    Position {
        number: i.records,
        place: i.place,
        resets: i.resets,
    }
}

// How many of so many bytes lie between two places.
fn between(from: u64, to: u64, total: usize) -> usize
    ensures { result ≡ min (to - from) total }
{
    to.saturating_sub(from).min(total as u64) as usize
}

// Indexes a piece from the position that the piece before it left, with so many marks there.
// Ruled out: a mark made twice at a piece's end; a record left out.
pub fn make(from: Position, marks: usize, bytes: &[u8], lent: &mut [u64], ended: bool) -> Made
    ensures lent_after { lent.new ≡ (gone_on from bytes.now lent.old marks).list }
    ensures value { result ≡ made from bytes.now ended (gone_on from bytes.now lent.old marks).given }
{
    let i = tool_index::index::go_on(from, bytes, lent, marks);
    Made {
        at: left(i),
        marks: i.marks,
        read: between(from.place, i.place, bytes.len()),
        next: decided(i.refusal, i.stop, ended),
    }
}
