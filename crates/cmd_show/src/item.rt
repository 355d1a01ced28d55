// What stands at the start of a rest of a log or a trace: an answer or a record with its line, the beginning of one, or what is wrong.
ghost use Rattle.std.specs.Prelude.{◌≡◌};
ghost use Rattle.trace.specs.Trace.{byte_at, parsed};
ghost use Rattle.text.specs.Log.{entry};
ghost use Rattle.text.specs.Line.{empty};
ghost use Rattle.cmd_show.specs.Item.{answer_item, record_item, item};

use text::line::Line;
use text::message::Fault;
use trace::Parsed;

#[derive(Clone, Copy)]
pub enum What {
    Shown,
    More,
    Bad(Fault),
}

// The line is empty, and the size 0, where nothing is shown.
#[derive(Clone, Copy)]
pub struct Item {
    pub what: What,
    pub line: Line,
    pub size: usize,
}

fn no_line(what: What) -> Item
    ensures { result ≡ record { what = what; line = empty; size = 0 } }
{
    Item {
        what,
        line: Line::empty(),
        size: 0,
    }
}

// The answers before it are of the kind given, or there are none and it is 0.
fn answer_item(kind: u8, number: u64, bytes: &[u8]) -> Item
    ensures { result ≡ answer_item number (entry kind bytes.now) }
{
    match text::log::parse_answer(kind, bytes) {
        Ok(l) => Item {
            what: What::Shown,
            line: text::answer::answer_line(number, l),
            size: answers::length_of(l.kind),
        },
        Err(Fault::Cut) => no_line(What::More),
        Err(fault) => no_line(What::Bad(fault)),
    }
}

fn record_item(number: u64, bytes: &[u8]) -> Item
    ensures { result ≡ record_item number (byte_at bytes.now 0) (parsed bytes.now) }
{
    let p = trace::parse(bytes);
    match p {
        Parsed::Record(e, size) => Item {
            what: What::Shown,
            line: text::record::record_line(number, bytes[0], e),
            size,
        },
        Parsed::Unknown => no_line(What::Bad(Fault::NoRecord)),
        Parsed::Cut => no_line(What::More),
    }
}

// Ruled out: a cut answer taken for bad; an unknown kind that waits for more; answers of two kinds in one log; the line of another one.
pub fn found(traces: bool, kind: u8, number: u64, bytes: &[u8]) -> Item
    ensures { result ≡ item traces kind number bytes.now }
{
    if traces {
        record_item(number, bytes)
    } else {
        answer_item(kind, number, bytes)
    }
}
