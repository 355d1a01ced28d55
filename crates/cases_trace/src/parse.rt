// A line's parts.
ghost use Rattle.std.specs.Prelude.{◌<◌, ◌≤◌, length};

// Where the byte c first stands in a text from a place on, or the text's length.
pub(crate) fn find(text: &[u8], from: usize, c: u8) -> usize
    requires { from ≤ length text.now }
    ensures { (from ≤ result) × (result ≤ length text.now) }
{
    for at in from..text.len() {
        if text[at] == c {
            return at;
        }
    }
    text.len()
}

// The place behind another, in a text of n bytes; it lies behind an earlier one.
pub(crate) fn past(from: usize, at: usize, n: usize) -> usize
    requires { (from ≤ at) × (from < n) }
    ensures { (from < result) × (result ≤ n) }
{
    if at < n { at + 1 } else { n }
}

// The value of a digit, or 16.
fn digit(c: u8) -> u8 {
    match c {
        b'0'..=b'9' => c - 48,
        b'A'..=b'F' => c - 55,
        _ => 16,
    }
}

// The digits so far, after one more.
fn add_digit(out: &mut [u8], digits: usize, d: u8) -> usize {
    let at = digits / 2;
    if d < 16 {
        if at < out.len() {
            out[at] = out[at] % 16 * 16 + d;
            return digits + 1;
        }
    }
    digits
}

// Puts the bytes that a text spells before its '/'; how many.
fn put_bytes(text: &[u8], out: &mut [u8]) -> usize {
    let end = find(text, 0, b'/');
    let mut digits: usize = 0;
    for c in &text[..end] {
        digits = add_digit(out, digits, digit(*c));
    }
    digits / 2
}

// The first n bytes of a part of memory, or all.
pub(crate) fn first(out: &mut [u8], n: usize) -> &mut [u8] {
    if n < out.len() { &mut out[..n] } else { out }
}

// The bytes that a text spells before its '/'.
pub(crate) fn bytes<'a>(text: &[u8], out: &'a mut [u8]) -> &'a mut [u8] {
    let n = put_bytes(text, out);
    first(out, n)
}

fn next_number(n: usize, d: u8) -> usize {
    if d < 10 { n % 64 * 10 + d as usize } else { n }
}

// The number that a text has behind its '/', or 20.
pub(crate) fn room(text: &[u8]) -> usize {
    let at = find(text, 0, b'/');
    if at == text.len() {
        return 20;
    }
    let mut n: usize = 0;
    for c in &text[at..] {
        n = next_number(n, digit(*c));
    }
    n
}
