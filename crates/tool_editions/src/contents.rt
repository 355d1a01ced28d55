// What the records of a buffer come to: its walks, each over so many records from the start of what is lent.
ghost use Rattle.std.specs.Prelude.{◌≡◌, ◌||◌, eqb, length};
ghost use Rattle.tool_editions.specs.Records.{first};
ghost use Rattle.tool_editions.specs.Refusals.{refusal_in};
ghost use Rattle.tool_editions.specs.Rules.{withdraws, withdrawn, any_of, number_in, found_in, later, latest, judge, last_after};
ghost use Rattle.tool_editions.specs.Contents.{read_all, contents, held, past_end};

use crate::records::{Edition, Record, parse};
use crate::refusals::Refusal;
use crate::rules;

// Records that are in order: the last edition added, and how many they are.
#[derive(Clone, Copy)]
pub struct Held {
    pub last: u16,
    pub count: usize,
}

fn withdraws(r: Record, number: u16) -> bool
    ensures { result ≡ withdraws r number }
{
    match r {
        Record::Added(_) => false,
        Record::Withdrawn(n) => n == number,
    }
}

// Whether one of so many records withdraws an edition.
fn withdrawn(number: u16, v: &[u8], count: usize) -> bool
    ensures { result ≡ withdrawn number (first count v.now) }
{
    let mut at: usize = 0;
    for _ in 0..count {
        let Ok(r) = parse(&v[at..]) else {
            return false;
        };
        if withdraws(r, number) {
            return true;
        }
        at += r.size();
    }
    false
}

// Whether an edition's number is the one asked for, or any is.
fn is_wanted(wanted: Option<u16>, number: u16) -> bool
    ensures { result ≡ (any_of wanted || eqb number (number_in wanted)) }
{
    match wanted {
        Some(n) => number == n,
        None => true,
    }
}

// What a record makes of the edition found so far; `gone` says that a later record withdraws this one's edition.
fn later(found: Option<Edition>, wanted: Option<u16>, r: Record, gone: bool) -> Option<Edition>
    ensures { found_in result ≡ later (found_in found) (any_of wanted) (number_in wanted) r gone }
{
    let Record::Added(e) = r else {
        return found;
    };
    if gone {
        return found;
    }
    if is_wanted(wanted, e.number) {
        Some(e)
    } else {
        found
    }
}

// The latest edition of so many records that is not withdrawn: any, or the one of a number.
// Ruled out: an edition that a later record withdraws; the first instead of the last.
pub fn latest(wanted: Option<u16>, v: &[u8], count: usize) -> Option<Edition>
    ensures { found_in result ≡ latest (any_of wanted) (number_in wanted) (first count v.now) }
{
    let mut found = None;
    let mut at: usize = 0;
    for left in (0..count).rev() {
        let Ok(r) = parse(&v[at..]) else {
            return found;
        };
        let next = at + r.size();
        let gone = withdrawn(r.number(), &v[next..], left);
        found = later(found, wanted, r, gone);
        at = next;
    }
    found
}

// Whether a record may stand behind others; `fits` says that there is room for it.
// Ruled out: 8 before 3; a withdrawal tested for 3; 64 records counted as too many.
pub fn judged(v: &[u8], before: Held, fits: bool, r: Record) -> Result<(), Refusal>
    ensures { refusal_in result ≡ judge before.last before.count (first before.count v.now) fits r }
{
    let room = fits & (before.count < 64);
    match r {
        Record::Added(e) => rules::ranked(rules::unmodelled(e), e.number <= before.last, room),
        Record::Withdrawn(n) => {
            let e = latest(Some(n), v, before.count);
            rules::ranked(false, e.is_none(), room)
        }
    }
}

fn last_after(last: u16, r: Record) -> u16
    ensures { result ≡ last_after last r }
{
    match r {
        Record::Added(e) => e.number,
        Record::Withdrawn(_) => last,
    }
}

// All the records of v, looked at in order.
// Ruled out: a record that the rules refuse taken; a cut record before a refused one.
fn read(v: &[u8]) -> Result<Held, Refusal>
    ensures { result ≡ held (read_all v.now) }
{
    let mut last: u16 = 0;
    let mut count: usize = 0;
    let mut at: usize = 0;
    while at < v.len() {
        let r = parse(&v[at..])?;
        if judged(v, Held { last, count }, true, r).is_err() {
            return Err(Refusal::BadRecord);
        }
        last = last_after(last, r);
        count += 1;
        at += r.size();
    }
    Ok(Held { last, count })
}

// The refusal of a buffer whose used length passes its end.
// Ruled out: 6 for an unknown kind before the end; 0 for records in order.
fn past_end(buf: &[u8]) -> Refusal
    ensures { result ≡ past_end (read_all buf.now) }
{
    match read(buf) {
        Ok(_) => Refusal::CutRecord,
        Err(why) => why,
    }
}

// The records in the used length of a buffer.
// Ruled out: records behind the used length; a used length past the end cut off.
pub fn read_used(buf: &[u8], used: usize) -> Result<Held, Refusal>
    ensures { result ≡ held (contents buf.now used) }
{
    if used > buf.len() {
        return Err(past_end(buf));
    }
    read(&buf[..used])
}
