// A text that is sent on RXD: `line "..." at RATE`.
ghost use Rattle.std.specs.Prelude.{◌≡◌, ◌<◌};
ghost use Rattle.tool_assemble.specs.Scan.{scan};
ghost use Rattle.tool_assemble.specs.Item.{sent_of, pins_pattern, full_pattern, by_pins, behind_text, inner, line_item};

use crate::item::{Fault, Item, Wrong, better};
use crate::scan::scan;
use crate::sent::{Sent, quoted};

// A text sent on RXD, by where it starts, the rate, the clock and the other pins.
fn sent_of(start: usize, baud: u64, clock: u64, pins: u64) -> Result<Item, Wrong>
    ensures { result ≡ sent_of start baud clock pins }
{
    if baud == 0 || clock < baud {
        return Err(Wrong {
            fault: Fault::NoRate,
            left: start,
        });
    }
    Ok(Item::Text(Sent {
        start,
        baud: (baud % 4294967296) as u32,
        clock: (clock % 4294967296) as u32,
        pins: (pins % 256) as u8,
    }))
}

// Behind the text, where the pins are said: at its rate, and the clock where it is said too.
fn with_pins(start: usize, rest: &[u8]) -> Result<Item, Wrong>
    ensures { result ≡ by_pins start (scan pins_pattern rest.now) (scan full_pattern rest.now) }
{
    match scan(b"\" at \x07, pins \x01\x1F", rest) {
        Ok(h) => sent_of(start, h.numbers.second, 16777216, h.numbers.third),
        Err(w) => match scan(b"\" at \x07, clock \x07, pins \x01\x1F", rest) {
            Ok(i) => sent_of(start, i.numbers.first, i.numbers.second, i.numbers.third),
            Err(v) => better(Err(w), Err(v)),
        },
    }
}

// Behind the text: at its rate, and the clock and the pins where they are said.
fn behind_text(start: usize, rest: &[u8]) -> Result<Item, Wrong>
    ensures { result ≡ behind_text start rest.now }
{
    match scan(b"\" at \x07\x1F", rest) {
        Ok(f) => sent_of(start, f.numbers.third, 16777216, 0),
        Err(_) => match scan(b"\" at \x07, clock \x07\x1F", rest) {
            Ok(g) => sent_of(start, g.numbers.second, g.numbers.third, 0),
            Err(_) => with_pins(start, rest),
        },
    }
}

// Behind the opening quote.
#[tactic(auto, unfolding(crate::specs::Item::inner))]
fn inner(start: usize, text: &[u8]) -> Result<Item, Wrong>
    ensures { result ≡ inner start text.now }
{
    let n = quoted(text);
    behind_text(start, &text[n..])
}

#[tactic(auto, unfolding(crate::specs::Item::line_item))]
pub(crate) fn line_item(text: &[u8]) -> Result<Item, Wrong>
    ensures { result ≡ line_item text.now }
{
    let f = scan(b"line \"", text)?;
    let from = text.len() - f.left;
    inner(f.left, &text[from..])
}
