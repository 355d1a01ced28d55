// A pattern held against a text: bytes, blanks and numbers, from left to right.
ghost use Rattle.std.specs.Prelude.{◌≡◌, ◌+◌, ◌<◌, ◌≤◌, length, get_or, Some, IfSome, IfOk};
ghost use Rattle.tool_assemble.specs.Scan.{is_blank, blanks, bytes, number, numeral, literal, gap, commented, ending, element, pushed, scan};

use crate::figures::{digits, limit};
use crate::item::{Fault, Wrong};

// What a text begins with: a number, and the bytes of it.
#[derive(Clone, Copy)]
pub struct Figures {
    pub value: u64,
    pub length: usize,
}

// What an element of a pattern takes of a text: its bytes, and its number if it is one.
#[derive(Clone, Copy)]
pub struct Taken {
    pub length: usize,
    pub value: Option<u64>,
}

// The last three numbers that a pattern found.
#[derive(Clone, Copy)]
pub struct Numbers {
    pub first: u64,
    pub second: u64,
    pub third: u64,
}

// A text that is as the pattern says: its numbers, and the bytes left behind the pattern.
#[derive(Clone, Copy)]
pub struct Found {
    pub left: usize,
    pub numbers: Numbers,
}

// A space, a tab or a carriage return.
pub(crate) fn is_blank(b: u8) -> bool
    ensures { result ≡ is_blank b }
{
    (b == 32) | (b == 9) | (b == 13)
}

// The byte at a place, 0 past the end.
pub(crate) fn byte(text: &[u8], i: usize) -> u8
    ensures { result ≡ get_or text.now i 0 }
{
    if i < text.len() {
        return text[i];
    }
    0
}

// The blanks that a text begins with.
#[tactic(auto, using(crate::proofs::Reading::blanks_at, crate::proofs::Reading::blanks_end, crate::proofs::Reading::end))]
pub(crate) fn blanks(text: &[u8]) -> usize
    ensures value { result ≡ blanks text.now }
    ensures upper_bound { result ≤ length text.now }
{
    for (i, b) in text.iter().enumerate() {
        if !is_blank(*b) {
            return i;
        }
    }
    text.len()
}

// What is no number, of so many bytes.
fn bytes(length: usize) -> Option<Taken>
    ensures { result ≡ bytes length }
{
    Some(Taken {
        length,
        value: None,
    })
}

// Figures with so many bytes in front; no digits are no number.
fn number(front: usize, d: Figures) -> Option<Taken>
    requires { d.length + front ≤ 18446744073709551615 }
    ensures value { result ≡ number front d }
    ensures length_bound { IfSome result (λ e. e.length ≤ d.length + front) }
{
    if d.length == 0 {
        return None;
    }
    Some(Taken {
        length: d.length + front,
        value: Some(d.value),
    })
}

// A number in the base of its field, or one that is marked: $ hexadecimal, & decimal.
#[tactic(auto, using(crate::proofs::Reading::numeral_none))]
fn numeral(c: u8, text: &[u8]) -> Option<Taken>
    ensures value { result ≡ numeral c text.now }
    ensures length_in_bounds { IfSome result (λ e. e.length ≤ length text.now) }
{
    if text.is_empty() {
        return None;
    }
    let most = limit(c);
    match text[0] {
        b'$' => number(1, digits(16, most, &text[1..])),
        b'&' => number(1, digits(10, most, &text[1..])),
        _ => {
            if c < 4 {
                number(0, digits(16, most, text))
            } else {
                number(0, digits(10, most, text))
            }
        }
    }
}

#[tactic(auto, using(crate::proofs::Reading::literal_none, crate::proofs::Reading::literal_some))]
fn literal(c: u8, text: &[u8]) -> Option<Taken>
    ensures value { result ≡ literal c text.now }
    ensures length_in_bounds { IfSome result (λ e. e.length ≤ length text.now) }
{
    if text.is_empty() {
        return None;
    }
    if text[0] == c { bytes(1) } else { None }
}

// One blank or more.
fn gap(text: &[u8]) -> Option<Taken>
    ensures value { result ≡ gap text.now }
    ensures length_in_bounds { IfSome result (λ e. e.length ≤ length text.now) }
{
    let n = blanks(text);
    if n == 0 { None } else { bytes(n) }
}

// A comment behind so many blanks.
fn commented(b: u8, n: usize) -> Option<Taken>
    ensures value { result ≡ commented b n }
    ensures length_le_n { IfSome result (λ e. e.length ≤ n) }
{
    if b == b'#' { bytes(n) } else { None }
}

// The end of the line, with blanks and a comment before it or without.
#[tactic(auto, using(crate::proofs::Reading::closed_none, crate::proofs::Reading::closed_some))]
pub(crate) fn ending(text: &[u8]) -> Option<Taken>
    ensures value { result ≡ ending text.now }
    ensures length_in_bounds { IfSome result (λ e. e.length ≤ length text.now) }
{
    let n = blanks(text);
    if n < text.len() {
        return commented(text[n], n);
    }
    bytes(n)
}

// An element of a pattern: below 31 a number of that field, 31 the end of the line, 32 blanks, else that byte.
#[tactic(auto, unfolding(crate::specs::Scan::element))]
fn element(c: u8, text: &[u8]) -> Option<Taken>
    ensures value { result ≡ element c text.now }
    ensures length_in_bounds { IfSome result (λ e. e.length ≤ length text.now) }
{
    if c < 31 {
        return numeral(c, text);
    }
    if c == 31 {
        return ending(text);
    }
    if c == 32 {
        return gap(text);
    }
    literal(c, text)
}

impl Numbers {
    fn none() -> Numbers
        ensures { result ≡ record { first = 0; second = 0; third = 0 } }
    {
        Numbers {
            first: 0,
            second: 0,
            third: 0,
        }
    }

    fn pushed(self, value: Option<u64>) -> Numbers
        ensures { result ≡ pushed self value }
    {
        match value {
            Some(v) => Numbers {
                first: self.second,
                second: self.third,
                third: v,
            },
            None => self,
        }
    }
}

// A text held against a pattern.
pub(crate) fn scan(pattern: &[u8], text: &[u8]) -> Result<Found, Wrong>
    ensures value { result ≡ scan pattern.now text.now }
    ensures left_in_bounds { IfOk result (λ f. f.left ≤ length text.now) }
{
    let mut numbers = Numbers::none();
    let mut at = 0;
    for c in pattern {
        let Some(e) = element(*c, &text[at..]) else {
            return Err(Wrong {
                fault: Fault::NotUnderstood,
                left: text.len() - at,
            });
        };
        numbers = numbers.pushed(e.value);
        at += e.length;
    }
    Ok(Found {
        left: text.len() - at,
        numbers,
    })
}
