// What is said of a name on standard error, behind the command's own. Bytes that a terminal would not show are escaped.
ghost use Rattle.std.specs.Prelude.{◌≡◌, ◌%◌};
ghost use Rattle.shell.specs.Escapes.{hex_digit, printable, escape};

use files::message::{ERROR, Says, fail_by, say_of_by};
use std::io::Error;

// A digit, in capitals.
fn hex_digit(n: u8) -> u8
    ensures { result ≡ hex_digit (n % 16) }
{
    let d = n % 16;
    if d < 10 { 48 + d } else { 55 + d }
}

// Ruled out: a control byte, or one above 7E, that reaches a terminal.
pub fn printable(b: u8) -> bool
    ensures { result ≡ printable b }
{
    if b < 32 {
        return false;
    }
    b < 127
}

// A byte that is not printable: a backslash, an x and two digits.
// Ruled out: two bytes that look the same.
pub fn escape(b: u8) -> [u8; 4]
    ensures { result ≡ escape b }
{
    let high = hex_digit(b / 16);
    let low = hex_digit(b);
    [92, 120, high, low]
}

fn say_byte(b: u8) {
    if printable(b) {
        io::write_all(ERROR, &[b]);
        return;
    }
    let e = escape(b);
    io::write_all(ERROR, &e);
}

// As names and files are said: with what a terminal would not show escaped.
#[derive(Clone, Copy)]
pub struct Escaped;

impl Says for Escaped {
    fn say(self, bytes: &[u8]) {
        for b in bytes {
            say_byte(*b);
        }
    }
}

// A message on a word, as a name that is not known.
pub fn say_of(program: &[u8], text: &[u8], word: &[u8]) {
    say_of_by(Escaped, program, text, word);
}

// What a call could not do, and why, in the system's words.
pub fn fail(program: &[u8], what: &[u8], error: Error) {
    fail_by(Escaped, program, what, error);
}
