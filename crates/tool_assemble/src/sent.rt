// A text sent on RXD: 8N1, a hold for each bit.
ghost use Rattle.std.specs.Prelude.{◌≡◌, ◌≤◌, length, IfSome};
ghost use Rattle.tool_assemble.specs.Sent.{of, escaped, hex_pair, behind_backslash, spelled, character, quoted, frame, level, edge, bit_clocks, hold_kind_of, bit_hold};

use crate::figures::digit_of;
use crate::scan::byte;
use qsm::event::Event;

// A text sent on RXD: the bytes of its line from its start on, the rate, the system clock in hertz, and the levels of the other pins.
#[derive(Clone, Copy)]
pub struct Sent {
    pub start: usize,
    pub baud: u32,
    pub clock: u32,
    pub pins: u8,
}

// A character of a quoted text: the bytes that it takes, and what it stands for.
#[derive(Clone, Copy)]
pub struct Character {
    pub length: usize,
    pub byte: u8,
}

// A record by its kind and event.
#[derive(Clone, Copy)]
pub struct Bit {
    pub kind: u8,
    pub event: Event,
}

fn of(length: usize, byte: u8) -> Option<Character>
    ensures { result ≡ of length byte }
{
    Some(Character { length, byte })
}

// \n, \r, \t, \\ and \".
fn escaped(b: u8) -> Option<Character>
    ensures { result ≡ escaped b }
{
    match b {
        b'n' => of(2, b'\n'),
        b'r' => of(2, b'\r'),
        b't' => of(2, b'\t'),
        b'\\' => of(2, b'\\'),
        b'"' => of(2, b'"'),
        _ => None,
    }
}

// \x and two hexadecimal digits.
fn hex_pair(high: u8, low: u8) -> Option<Character>
    ensures { result ≡ hex_pair high low }
{
    if high > 15 || low > 15 {
        return None;
    }
    of(4, high * 16 + low)
}

fn behind_backslash(b: u8, c: u8, d: u8) -> Option<Character>
    ensures { result ≡ behind_backslash b c d }
{
    if b == 120 {
        return hex_pair(digit_of(c), digit_of(d));
    }
    escaped(b)
}

// A character by its first four bytes: none for the closing quote, or for an escape that is not known.
#[tactic(auto, unfolding(crate::specs::Sent::spelled))]
fn spelled(a: u8, b: u8, c: u8, d: u8) -> Option<Character>
    ensures { result ≡ spelled a b c d }
{
    if a == 34 {
        return None;
    }
    if a == 92 {
        return behind_backslash(b, c, d);
    }
    of(1, a)
}

// The character that the rest of a quoted text begins with.
// Ruled out: the closing quote sent; an escape that is not known sent as it stands.
#[tactic(auto, unfolding(crate::specs::Sent::character))]
pub fn first(text: &[u8]) -> Option<Character>
    ensures value { result ≡ character text.now }
    ensures length_in_bounds { IfSome result (λ c. c.length ≤ length text.now) }
{
    let c = spelled(byte(text, 0), byte(text, 1), byte(text, 2), byte(text, 3))?;
    if text.len() < c.length {
        return None;
    }
    Some(c)
}

// The bytes of a quoted text.
pub(crate) fn quoted(text: &[u8]) -> usize
    ensures value { result ≡ quoted (length text.now) 0 text.now }
    ensures upper_bound { result ≤ length text.now }
{
    let mut at = 0;
    for turn in 0..text.len() {
        let Some(c) = first(&text[at..]) else {
            return at;
        };
        at += c.length;
    }
    at
}

// A frame: a start bit, eight bits of the byte, the lowest first, and a stop bit.
fn frame(byte: u8) -> [bool; 10]
    ensures { result ≡ frame byte }
{
    [
        false,
        byte % 2 == 1,
        byte / 2 % 2 == 1,
        byte / 4 % 2 == 1,
        byte / 8 % 2 == 1,
        byte / 16 % 2 == 1,
        byte / 32 % 2 == 1,
        byte / 64 % 2 == 1,
        byte / 128 % 2 == 1,
        true,
    ]
}

// The level of bit i of a frame, and behind it.
fn level(byte: u8, i: u8) -> bool
    ensures { result ≡ level byte i }
{
    let i = i as usize;
    if i < 10 { frame(byte)[i] } else { true }
}

// The clock at which bit k of a text begins, from the beginning of the text: k x HZ / baud, rounded, halves up.
#[tactic(auto, unfolding(crate::specs::Sent::edge))]
fn edge(baud: u32, clock: u32, k: u64) -> u64
    requires { k ≤ 4294967296 }
    ensures { result ≡ edge baud clock k }
{
    let rate = baud as u64;
    if rate == 0 {
        return 0;
    }
    (k * clock as u64 + rate / 2) / rate
}

// The clocks of bit k of a text.
fn bit_clocks(s: Sent, k: u32) -> u64
    ensures { result ≡ bit_clocks s k }
{
    let from = edge(s.baud, s.clock, k as u64);
    let to = edge(s.baud, s.clock, k as u64 + 1);
    to.saturating_sub(from)
}

fn hold_kind(clocks: u64) -> u8
    ensures { result ≡ hold_kind_of clocks }
{
    if clocks < 65536 { 2 } else { 5 }
}

// The hold of bit i of a character, which is bit k of the text.
// Ruled out: every bit of the same length, so that the error adds up; the highest bit first; a long bit in a short hold.
pub fn bit_hold(s: Sent, byte: u8, i: u8, k: u32) -> Bit
    ensures { result ≡ bit_hold s byte i k }
{
    let clocks = bit_clocks(s, k);
    Bit {
        kind: hold_kind(clocks),
        event: Event::Hold(s.pins, level(byte, i), (clocks % 4294967296) as u32),
    }
}
