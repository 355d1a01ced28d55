// A change as text: its time, and the value and name of each line that differs, as a VCD file has them.
ghost use Rattle.std.specs.Prelude.{◌≡◌, ◌+◌, ◌*◌, ◌<◌, ◌≤◌, ◌++◌};
ghost use Rattle.text.specs.Digits.{decimal, decimal_digit};
ghost use Rattle.text.specs.Line.{puts, Shows};
ghost use Rattle.tool_wave.specs.Vcd.{time, time_text, sign, halved, value, values, outputs, inputs, rxd, level, vector, refused, nine, step_text};

use crate::Step;
use crate::view::View;
use text::line::Line;

const BILLION: u64 = 1000000000;

// Up to eight lines, bit 0 the first: whether they are known, which are driven, and their levels.
#[derive(Clone, Copy)]
pub struct Bits {
    pub known: bool,
    pub mask: u8,
    pub levels: u8,
}

impl Bits {
    fn sign(self) -> u8
        ensures { result ≡ sign self }
    {
        if !self.known {
            return b'x';
        }
        if self.mask % 2 == 0 {
            return b'z';
        }
        b'0' + self.levels % 2
    }

    fn halved(self) -> Bits
        ensures { result ≡ halved self }
    {
        Bits {
            known: self.known,
            mask: self.mask / 2,
            levels: self.levels / 2,
        }
    }
}

fn outputs(v: View) -> Bits
    ensures { result ≡ outputs v }
{
    let l = v.look;
    Bits {
        known: v.known,
        mask: l.mask,
        levels: l.levels,
    }
}

fn inputs(v: View) -> Bits
    ensures { result ≡ inputs v }
{
    Bits {
        known: v.given,
        mask: 255,
        levels: v.inputs,
    }
}

fn rxd(v: View) -> Bits
    ensures { result ≡ rxd v }
{
    Bits {
        known: v.given,
        mask: 255,
        levels: steps::choose(v.rxd, 1, 0),
    }
}

fn level(v: View) -> Bits
    ensures { result ≡ level v }
{
    let l = v.look;
    Bits {
        known: v.known,
        mask: 255,
        levels: l.level,
    }
}

fn vector(v: View) -> Bits
    ensures { result ≡ vector v }
{
    let l = v.look;
    Bits {
        known: v.known,
        mask: 255,
        levels: l.vector,
    }
}

fn value(line: Line, id: u8, a: u8, b: u8) -> Line
    ensures { result ≡ puts line (value id a b) }
{
    if a == b {
        return line;
    }
    line.put(b).put(id).put(b'\n')
}

// n lines, named from id on, where they differ.
fn values(start: Line, n: u8, id: u8, v: Bits, w: Bits) -> Line
    requires { id + n ≤ 255 }
    ensures { result ≡ puts start (values n id v w) }
{
    let mut line = start;
    let mut a = v;
    let mut b = w;
    for name in id..id + n {
        line = value(line, name, a.sign(), b.sign());
        a = a.halved();
        b = b.halved();
    }
    line
}

fn digit(n: u64) -> u8
    ensures { result ≡ decimal_digit n }
{
    b'0' + (n % 10) as u8
}

// The last nine digits.
fn nine(line: Line, n: u64) -> Line
    ensures { result ≡ puts line (nine n) }
{
    line.put(digit(n / 100000000))
        .put(digit(n / 10000000))
        .put(digit(n / 1000000))
        .put(digit(n / 100000))
        .put(digit(n / 10000))
        .put(digit(n / 1000))
        .put(digit(n / 100))
        .put(digit(n / 10))
        .put(digit(n))
}

// Seconds, and what is left of another in ns.
fn whole(line: Line, seconds: u64, rest: u64) -> Line
    requires { rest < 1000000000 }
    ensures { result ≡ puts line (decimal 29 (seconds * 1000000000 + rest)) }
{
    if seconds == 0 {
        return line.decimal(29, rest);
    }
    nine(line.decimal(20, seconds), rest)
}

// Clock n in ns, by quotient and rest, so that no product passes 64 bits.
fn time(line: Line, hz: u32, n: u64) -> Line
    ensures { result ≡ puts line (decimal 29 (time hz n)) }
{
    if hz == 0 {
        return line.put(b'0');
    }
    let h = hz as u64;
    whole(line, n / h, n % h * BILLION / h)
}

fn refused(line: Line, why: u8) -> Line
    ensures { result ≡ puts line (refused why) }
{
    if why == 0 {
        return line;
    }
    line.put(b'1').put(b'0' + why % 10).put(b'\n')
}

// The time of a clock since the start.
// Ruled out: a time that begins anew past 2^64; clocks for ns.
pub fn time_text(hz: u32, n: u64) -> Line
    ensures { Shows result (time_text hz n) }
{
    time(Line::empty().put(b'#'), hz, n).put(b'\n')
}

fn given(line: Line, v: View, w: View) -> Line
    ensures { result ≡ puts line (values 8 65 (inputs v) (inputs w) ++ values 1 73 (rxd v) (rxd w)) }
{
    values(
        values(line, 8, 65, inputs(v), inputs(w)),
        1,
        73,
        rxd(v),
        rxd(w),
    )
}

fn asked(line: Line, v: View, w: View) -> Line
    ensures { result ≡ puts line (values 3 105 (level v) (level w) ++ values 8 108 (vector v) (vector w)) }
{
    values(
        values(line, 3, 105, level(v), level(w)),
        8,
        108,
        vector(v),
        vector(w),
    )
}

// Ruled out: a line that did not change; the value before.
pub fn step_text(hz: u32, s: Step) -> Line
    ensures { Shows result (step_text hz s) }
{
    let v = s.before;
    let w = s.after;
    let at = time_text(hz, s.clock);
    let pins = values(at, 8, 97, outputs(v), outputs(w));
    refused(asked(given(pins, v, w), v, w), s.refusal)
}
