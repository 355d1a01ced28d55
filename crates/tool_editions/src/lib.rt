// Register settings by edition, kept as records in a lent buffer with a used length: added, withdrawn and asked for.
#![tactic(auto)]

ghost use Rattle.std.specs.Prelude.{◌≡◌, ◌++◌, ◌≤◌, length, drop};
ghost use Rattle.tool_editions.specs.Records.{size_of, bytes_of};
ghost use Rattle.tool_editions.specs.Rules.{any_of, number_in};
ghost use Rattle.tool_editions.specs.Editions.{changed, asked, add, withdraw, get, newest, told, answered, Changes};

mod claims;
mod contents;
pub mod records;
mod refusals;
mod rules;

use contents::{judged, latest, read_used};
use records::{ADDED_SIZE, Edition, Record, WITHDRAWN_SIZE, withdrawal};
use refusals::Refusal;

// The used length after a change, and the refusal's number or 0.
#[repr(C)]
#[derive(Clone, Copy)]
pub struct Changed {
    pub used: usize,
    pub refusal: u8,
}

// The edition asked for and 0, or an edition of zeros and the refusal's number.
#[repr(C)]
#[derive(Clone, Copy)]
pub struct Given {
    pub edition: Edition,
    pub refusal: u8,
}

impl From<Result<Edition, Refusal>> for Given {
    ghost from_gives = { λ r g. g ≡ told r };

    fn from(r: Result<Edition, Refusal>) -> Given {
        match r {
            Ok(edition) => Given {
                edition,
                refusal: 0,
            },
            Err(why) => Given {
                edition: Edition {
                    number: 0,
                    sccr0: 0,
                    sccr1: 0,
                    spcr0: 0,
                    spcr1: 0,
                },
                refusal: u8::from(why),
            },
        }
    }
}

// A record at the start of what is left of the buffer.
fn put(left: &mut [u8], r: Record)
    requires { size_of r ≤ length left.old }
    ensures { left.new ≡ bytes_of r ++ drop (size_of r) left.old }
{
    match r {
        Record::Added(e) => left[..ADDED_SIZE].copy_from_slice(&e.added()),
        Record::Withdrawn(n) => left[..WITHDRAWN_SIZE].copy_from_slice(&withdrawal(n)),
    }
}

// A record behind those that the buffer has, by what they come to: the used length after it.
fn append(buf: &mut [u8], used: usize, r: Record) -> Result<usize, Refusal>
    ensures { Changes (changed buf.old used r) (answered used result) buf.new }
{
    let before = read_used(buf, used)?;
    let size = r.size();
    let fits = size <= buf.len() - used;
    judged(&buf[..used], before, fits, r)?;
    put(&mut buf[used..], r);
    Ok(used + size)
}

fn change(buf: &mut [u8], used: usize, r: Record) -> Changed
    ensures { Changes (changed buf.old used r) result buf.new }
{
    match append(buf, used, r) {
        Ok(after) => Changed {
            used: after,
            refusal: 0,
        },
        Err(why) => Changed {
            used,
            refusal: u8::from(why),
        },
    }
}

// The newest edition that is not withdrawn, or the one of a number.
fn ask(buf: &[u8], used: usize, wanted: Option<u16>) -> Result<Edition, Refusal>
    ensures { told result ≡ asked buf.now used (any_of wanted) (number_in wanted) }
{
    let before = read_used(buf, used)?;
    match latest(wanted, &buf[..used], before.count) {
        Some(e) => Ok(e),
        None => Err(Refusal::BadNumber),
    }
}

// Adds an edition: its record goes behind those that the buffer has.
// Ruled out: an edition below one that was withdrawn added; a byte of the buffer changed by a refusal; 8 before 3.
pub fn add(buf: &mut [u8], used: usize, e: Edition) -> Changed
    ensures { Changes (add buf.old used e) result buf.new }
{
    change(buf, used, Record::Added(e))
}

// Withdraws an edition by a record behind those that the buffer has.
// Ruled out: an edition withdrawn twice; the room of an edition withdrawn used again.
pub fn withdraw(buf: &mut [u8], used: usize, number: u16) -> Changed
    ensures { Changes (withdraw buf.old used number) result buf.new }
{
    change(buf, used, Record::Withdrawn(number))
}

// The edition of a number, as it was added, if it is not withdrawn.
// Ruled out: a withdrawn edition given; a record cut by the used length read; a bit that no register has lost.
pub fn get(buf: &[u8], used: usize, number: u16) -> Given
    ensures { result ≡ get buf.now used number }
{
    Given::from(ask(buf, used, Some(number)))
}

// The newest edition that is not withdrawn.
// Ruled out: the last one added, withdrawn or not; the first one.
pub fn newest(buf: &[u8], used: usize) -> Given
    ensures { result ≡ newest buf.now used }
{
    Given::from(ask(buf, used, None))
}
