// A line of text: a record of a trace, a text sent on RXD, nothing, or what is wrong with it and where.
ghost use Rattle.std.specs.Prelude.{◌≡◌, ◌+◌, ◌≤◌, ◌<◌, length};
ghost use Rattle.tool_assemble.specs.Item.{better, reset_item, hold_of, hold_item, colon, fronted, holds, reads, writes, entries, body_item, unblanked, item};

use crate::accesses::access_item;
use crate::figures::digit_of;
use crate::scan::{Numbers, blanks, ending, scan};
use crate::sent::Sent;
use crate::texts::line_item;
use qsm::event::Event;

// What is wrong with a line.
#[derive(Clone, Copy)]
pub enum Fault {
    NotUnderstood,
    OtherName,
    NoName,
    ManyNames,
    NoRate,
}

// What is wrong with a line, with the bytes left from there on.
#[derive(Clone, Copy)]
pub struct Wrong {
    pub fault: Fault,
    pub left: usize,
}

// What a line says: a record by its kind and event, or a text sent on RXD.
#[derive(Clone, Copy)]
pub enum Item {
    Record(u8, Event),
    Text(Sent),
}

// The first of two that is not wrong; else what was understood further.
pub(crate) fn better(x: Result<Item, Wrong>, y: Result<Item, Wrong>) -> Result<Item, Wrong>
    ensures { result ≡ better x y }
{
    match (x, y) {
        (Err(w), Err(v)) => { if v.left < w.left { y } else { x } }
        (Err(_), Ok(_)) => y,
        (Ok(_), _) => x,
    }
}

#[tactic(auto, unfolding(crate::specs::Item::reset_item))]
fn reset_item(text: &[u8]) -> Result<Item, Wrong>
    ensures { result ≡ reset_item text.now }
{
    scan(b"reset\x1F", text)?;
    Ok(Item::Record(1, Event::Reset))
}

fn hold_of(n: Numbers) -> Event
    ensures { result ≡ hold_of n }
{
    Event::Hold(
        (n.first % 256) as u8,
        n.second == 1,
        (n.third % 4294967296) as u32,
    )
}

#[tactic(auto, unfolding(crate::specs::Item::hold_item))]
fn hold_item(kind: u8, pattern: &[u8], text: &[u8]) -> Result<Item, Wrong>
    ensures { result ≡ hold_item kind pattern.now text.now }
{
    let f = scan(pattern, text)?;
    Ok(Item::Record(kind, hold_of(f.numbers)))
}

// A colon behind digits.
fn colon(b: u8, i: usize) -> usize
    requires { i < 18446744073709551615 }
    ensures value { result ≡ colon b i }
    ensures upper_bound { result ≤ i + 1 }
{
    if b == b':' && 0 < i { i + 1 } else { 0 }
}

// The bytes of the number in front of a record and of the colon behind it, 0 if there are none.
#[tactic(auto, using(crate::proofs::Reading::fronted_end, std::proofs::lemmas::List::drop_all))]
fn fronted(text: &[u8]) -> usize
    ensures value { result ≡ fronted text.now }
    ensures upper_bound { result ≤ length text.now }
{
    for (i, b) in text.iter().enumerate() {
        if digit_of(*b) > 9 {
            return colon(*b, i);
        }
    }
    0
}

#[tactic(auto, unfolding(crate::specs::Item::holds))]
fn holds(text: &[u8]) -> Result<Item, Wrong>
    ensures { result ≡ holds text.now }
{
    better(
        hold_item(2, b"hold pins \x01, RXD \x04, clocks \x06\x1F", text),
        hold_item(5, b"long hold pins \x01, RXD \x04, clocks \x07\x1F", text),
    )
}

fn reads(text: &[u8]) -> Result<Item, Wrong>
    ensures { result ≡ reads text.now }
{
    better(
        access_item(false, true, b"read as supervisor, width \x05, ", text),
        access_item(false, false, b"read as user, width \x05, ", text),
    )
}

fn writes(text: &[u8]) -> Result<Item, Wrong>
    ensures { result ≡ writes text.now }
{
    better(
        access_item(true, true, b"write as supervisor, width \x05, ", text),
        access_item(true, false, b"write as user, width \x05, ", text),
    )
}

#[tactic(auto, unfolding(crate::specs::Item::entries))]
fn entries(text: &[u8]) -> Result<Item, Wrong>
    ensures { result ≡ entries text.now }
{
    let accesses = better(reads(text), writes(text));
    let others = better(reset_item(text), line_item(text));
    better(better(holds(text), accesses), others)
}

#[tactic(auto, unfolding(crate::specs::Item::body_item))]
fn body_item(text: &[u8]) -> Result<Item, Wrong>
    ensures { result ≡ body_item text.now }
{
    let n = blanks(text);
    entries(&text[n..])
}

// Behind the blanks of a line.
#[tactic(auto, unfolding(crate::specs::Item::unblanked))]
fn unblanked(text: &[u8]) -> Result<Option<Item>, Wrong>
    ensures { result ≡ unblanked text.now }
{
    if ending(text).is_some() {
        return Ok(None);
    }
    let n = fronted(text);
    let item = body_item(&text[n..])?;
    Ok(Some(item))
}

// What a line says, without the byte that ends it: nothing, an item, or what is wrong with it.
// Ruled out: a register's name that is not the offset's; a number too big for its field taken in part; a comment taken for a record; the
// number in front of a record demanded.
#[tactic(auto, unfolding(crate::specs::Item::item))]
pub fn parse(line: &[u8]) -> Result<Option<Item>, Wrong>
    ensures { result ≡ item line.now }
{
    let n = blanks(line);
    unblanked(&line[n..])
}
