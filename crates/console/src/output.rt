// What a command writes: bytes are collected in a buffer that it lends, and handed to a sink, which is lent too, when the buffer is full. The first error ends it:
// nothing is written after it.
ghost use Rattle.std.specs.Prelude.{◌≡◌, false, [], take};
ghost use Rattle.console.specs.Output.{Hands, Gives, Cleared, Fits, fresh, after};

use files::output::first;
use files::system::Sink;
use std::io::ErrorKind;
use text::line::Line;

// Where an output stands.
#[derive(Clone, Copy)]
pub struct Out {
    // Each text is handed on at once, as to a terminal.
    pub eager: bool,
    // Bytes that wait at the start of the buffer.
    pub waits: usize,
    // A write has failed.
    pub failed: bool,
}

// Writes until all is taken or a write fails; how many bytes were taken. A call that a signal interrupts has taken nothing and failed in nothing.
fn hand(to: &Sink, bytes: &[u8]) -> Result<usize, usize>
    ensures { Hands bytes.now result }
{
    let mut at = 0;
    for _ in 0..u64::MAX {
        if at == bytes.len() {
            return Ok(at);
        }
        match to.write_some(&bytes[at..]) {
            Ok(0) => return Err(at),
            Ok(n) => at += n,
            Err(e) => {
                if e.kind() != ErrorKind::Interrupted {
                    return Err(at);
                }
            }
        }
    }
    Err(at)
}

impl Out {
    fn after(mut self, handed: Result<usize, usize>) -> Out
        ensures { result ≡ after self handed }
    {
        self.waits = 0;
        self.failed = handed.is_err();
        self
    }

    // Ruled out: an output that has failed; bytes that wait.
    pub fn to(eager: bool) -> Out
        ensures { result ≡ fresh eager }
    {
        Out {
            eager,
            waits: 0,
            failed: false,
        }
    }

    // A standard stream, where a terminal has each text at once.
    // Ruled out: an output that has failed; bytes that wait.
    pub fn standard(to: &Sink) -> Out
        ensures waits_value { result.waits ≡ 0 }
        ensures failed_value { result.failed ≡ false }
    {
        Out::to(to.is_terminal())
    }
}

// Hands on what waits.
// Ruled out: a byte written twice or left out; a write after a failed one; a byte that still waits.
pub fn flush(to: &Sink, out: Out, buf: &[u8]) -> Out
    ensures gives { Gives out buf.now [] result buf.now }
    ensures cleared { Cleared out result }
{
    if out.failed {
        return out;
    }
    out.after(hand(to, first(buf, out.waits)))
}

// A text behind what waits, where there is room for it.
#[tactic(auto, using(crate::proofs::Giving::stores))]
fn stored(out: Out, buf: &mut [u8], text: &[u8]) -> Out
    requires fits { Fits out buf.old text.now }
    requires failed_value { out.failed ≡ false }
    ensures { Gives out buf.old text.now result buf.new }
{
    let at = out.waits;
    let end = at + text.len();
    buf[at..end].copy_from_slice(text);
    let mut now = out;
    now.waits = end;
    now
}

// A text behind what waits, which is handed on first where the buffer has no room for both. A text that is longer than the buffer is handed on
// by itself.
fn collect(to: &Sink, out: Out, buf: &mut [u8], text: &[u8]) -> Out
    requires { out.failed ≡ false }
    ensures { Gives out buf.old text.now result buf.new }
{
    let waits = out.waits;
    if waits <= buf.len() {
        if text.len() <= buf.len() - waits {
            return stored(out, buf, text);
        }
    }
    let clear = flush(to, out, buf);
    if clear.failed {
        return clear;
    }
    if text.len() <= buf.len() {
        return stored(clear, buf, text);
    }
    clear.after(hand(to, text))
}

// Gives a text to an output.
// Ruled out: a byte written twice, out of order or left out; a write after a failed one.
#[tactic(auto, using(crate::proofs::Giving::refused))]
pub fn put(to: &Sink, out: Out, buf: &mut [u8], text: &[u8]) -> Out
    ensures { Gives out buf.old text.now result buf.new }
{
    if out.failed {
        return out;
    }
    let given = collect(to, out, buf, text);
    if given.eager {
        return flush(to, given, buf);
    }
    given
}

// Gives the first n bytes of a text, or all where there are fewer.
// Ruled out: a byte behind them; one of them left out.
pub fn put_first(to: &Sink, out: Out, buf: &mut [u8], text: &[u8], n: usize) -> Out
    ensures { Gives out buf.old (take n text.now) result buf.new }
{
    put(to, out, buf, first(text, n))
}

// Ruled out: a line cut short; the zeros behind it.
pub fn put_line(to: &Sink, out: Out, buf: &mut [u8], line: Line) -> Out
    ensures { Gives out buf.old (take line.length line.bytes) result buf.new }
{
    let n = line.length;
    let bytes = line.bytes;
    put_first(to, out, buf, &bytes, n)
}
