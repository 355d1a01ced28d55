// A read or a write in words: its register by name, by offset, or by both.
ghost use Rattle.std.specs.Prelude.{◌≡◌};
ghost use Rattle.tool_assemble.specs.Scan.{scan};
ghost use Rattle.tool_assemble.specs.Item.{access_of, offset_of, access_at, access_named, behind_at, behind_name, named, access_item};

use crate::item::{Fault, Item, Wrong, better};
use crate::names::{Offset, is_name, name_length, sought};
use crate::scan::{Found, Numbers, scan};
use qsm::event::{Access, Event};

// The offsets of the register map end here.
const MAP_END: u16 = 336;

fn access_of(writes: bool, supervisor: bool, width: u8, offset: u16, value: u64) -> Item
    ensures { result ≡ access_of writes supervisor width offset value }
{
    if writes {
        let a = Access::Write(supervisor, width, offset, (value % 4294967296) as u32);
        return Item::Record(4, Event::Access(a));
    }
    let a = Access::Read(supervisor, width, offset);
    Item::Record(3, Event::Access(a))
}

// The offset, among the numbers behind the names.
fn offset_of(writes: bool, n: Numbers) -> u16
    ensures { result ≡ offset_of writes n }
{
    if writes {
        return (n.second % 65536) as u16;
    }
    (n.third % 65536) as u16
}

// With an offset: the names are those of its registers.
#[tactic(auto, unfolding(crate::specs::Item::access_at))]
fn access_at(
    writes: bool,
    supervisor: bool,
    width: u8,
    text: &[u8],
    k: usize,
    n: Numbers,
) -> Result<Item, Wrong>
    ensures { result ≡ access_at writes supervisor width text.now k n }
{
    let offset = offset_of(writes, n);
    if is_name(width, offset, text, k) {
        return Ok(access_of(writes, supervisor, width, offset, n.third));
    }
    Err(Wrong {
        fault: Fault::OtherName,
        left: text.len(),
    })
}

// Without one: the offset is the only one with these names.
#[tactic(auto, unfolding(crate::specs::Item::access_named))]
fn access_named(
    writes: bool,
    supervisor: bool,
    width: u8,
    text: &[u8],
    k: usize,
    n: Numbers,
) -> Result<Item, Wrong>
    ensures { result ≡ access_named writes supervisor width text.now k n }
{
    let left = text.len();
    match sought(width, text, k, MAP_END) {
        Offset::Nowhere => Err(Wrong {
            fault: Fault::NoName,
            left,
        }),
        Offset::At(offset) => Ok(access_of(writes, supervisor, width, offset, n.third)),
        Offset::Several => Err(Wrong {
            fault: Fault::ManyNames,
            left,
        }),
    }
}

// What stands behind the names: an offset, and a value of a write.
fn behind_at(writes: bool, rest: &[u8]) -> Result<Found, Wrong>
    ensures { result ≡ scan (behind_at writes) rest.now }
{
    if writes {
        return scan(b" at \x02, value \x03\x1F", rest);
    }
    scan(b" at \x02\x1F", rest)
}

fn behind_name(writes: bool, rest: &[u8]) -> Result<Found, Wrong>
    ensures { result ≡ scan (behind_name writes) rest.now }
{
    if writes {
        return scan(b", value \x03\x1F", rest);
    }
    scan(b"\x1F", rest)
}

// From the names on.
#[tactic(auto, unfolding(crate::specs::Item::named))]
fn named(writes: bool, supervisor: bool, width: u8, text: &[u8]) -> Result<Item, Wrong>
    ensures { result ≡ named writes supervisor width text.now }
{
    let k = name_length(text);
    match behind_at(writes, &text[k..]) {
        Ok(f) => access_at(writes, supervisor, width, text, k, f.numbers),
        Err(w) => match behind_name(writes, &text[k..]) {
            Ok(g) => access_named(writes, supervisor, width, text, k, g.numbers),
            Err(v) => better(Err(w), Err(v)),
        },
    }
}

#[tactic(auto, unfolding(crate::specs::Item::access_item))]
pub(crate) fn access_item(
    writes: bool,
    supervisor: bool,
    pattern: &[u8],
    text: &[u8],
) -> Result<Item, Wrong>
    ensures { result ≡ access_item writes supervisor pattern.now text.now }
{
    let f = scan(pattern, text)?;
    let from = text.len() - f.left;
    named(
        writes,
        supervisor,
        (f.numbers.third % 128) as u8,
        &text[from..],
    )
}
