// The names of the registers that an access touches: how long they are in a text, and which offset they belong to.
ghost use Rattle.std.specs.Prelude.{◌≡◌, ◌≤◌, length};
ghost use Rattle.text.specs.Line.{Shows};
ghost use Rattle.text.specs.Register.{registers};
ghost use Rattle.tool_assemble.specs.Names.{at_word, blank_stops, stops, name_length, is_name, aligned, at_offset, added, joined, sought};

use crate::scan::{byte, is_blank};
use text::line::Line;

// Which offset has a name: none, one, or several.
#[derive(Clone, Copy)]
pub enum Offset {
    Nowhere,
    At(u16),
    Several,
}

// The word `at`.
fn at_word(a: u8, b: u8, c: u8) -> bool
    ensures { result ≡ at_word a b c }
{
    let blank = is_blank(c);
    (a == 97) & (b == 116) & blank
}

fn blank_stops(a: u8, b: u8, c: u8) -> bool
    ensures { result ≡ blank_stops a b c }
{
    let blank = is_blank(a);
    let word = at_word(a, b, c);
    (a == 0) | (a == 35) | blank | word
}

// A comma, a comment, or a blank with a blank, a comment, the end or the word `at` behind it.
fn stops(text: &[u8]) -> bool
    ensures { result ≡ stops text.now }
{
    let b = byte(text, 0);
    if is_blank(b) {
        return blank_stops(byte(text, 1), byte(text, 2), byte(text, 3));
    }
    (b == 44) | (b == 35)
}

// The bytes of the names that a text begins with.
#[tactic(auto, using(crate::proofs::Reading::name_at, crate::proofs::Reading::name_end, crate::proofs::Reading::rest, std::proofs::lemmas::List::drop_all))]
pub(crate) fn name_length(text: &[u8]) -> usize
    ensures value { result ≡ name_length text.now }
    ensures upper_bound { result ≤ length text.now }
{
    for i in 0..text.len() {
        if stops(&text[i..]) {
            return i;
        }
    }
    text.len()
}

fn names(width: u8, offset: u16) -> Line
    ensures { Shows result (registers width offset) }
{
    Line::empty().registers(width, offset)
}

// Whether the first k bytes of a text are the names of what an access of that width touches at an offset.
#[tactic(auto, using(crate::proofs::Reading::begins_is, crate::proofs::Reading::shown_take, crate::proofs::Reading::shown_length, crate::proofs::Reading::shown_within), unfolding(crate::specs::Names::is_name))]
pub(crate) fn is_name(width: u8, offset: u16, text: &[u8], k: usize) -> bool
    ensures { result ≡ is_name width offset text.now k }
{
    let line = names(width, offset);
    line.length == k && text.starts_with(&line.bytes[..line.length])
}

fn added(offset: u16, before: Offset) -> Offset
    ensures { result ≡ added offset before }
{
    match before {
        Offset::Nowhere => Offset::At(offset),
        Offset::At(_) => Offset::Several,
        Offset::Several => Offset::Several,
    }
}

fn joined(here: bool, offset: u16, before: Offset) -> Offset
    ensures { result ≡ joined here offset before }
{
    if here {
        return added(offset, before);
    }
    before
}

// Where an access of that width may stand: a byte anywhere, others at even offsets.
fn aligned(width: u8, offset: u16) -> bool
    ensures { result ≡ aligned width offset }
{
    (width == 1) | (offset % 2 == 0)
}

fn at_offset(width: u8, offset: u16, text: &[u8], k: usize) -> bool
    ensures { result ≡ at_offset width offset text.now k }
{
    aligned(width, offset) && is_name(width, offset, text, k)
}

// The offset below `end` whose names the first k bytes of a text are.
#[tactic(auto, using(crate::proofs::Reading::sought_none, crate::proofs::Reading::sought_more))]
pub(crate) fn sought(width: u8, text: &[u8], k: usize, end: u16) -> Offset
    ensures { result ≡ sought width text.now k end }
{
    let mut found = Offset::Nowhere;
    for n in 0..end {
        found = joined(at_offset(width, n, text, k), n, found);
    }
    found
}
