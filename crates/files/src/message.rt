// What is said on standard error, behind the program's name.
ghost use Rattle.std.specs.Prelude.{◌≤◌, length};

use crate::output::first;
use std::fmt;
use std::fmt::Write;
use std::io::Error;

// Standard error.
pub const ERROR: i32 = 2;

fn begin(program: &[u8]) {
    io::write_all(ERROR, program);
    io::write_all(ERROR, b": ");
}

// A message, with its line's end.
pub fn say(program: &[u8], text: &[u8]) {
    begin(program);
    io::write_all(ERROR, text);
}

// A message that is the first n bytes of a buffer.
pub fn say_first(program: &[u8], bytes: &[u8], n: usize) {
    begin(program);
    io::write_all(ERROR, first(bytes, n));
}

// How a message says the bytes of a name.
pub trait Says: Copy {
    fn say(self, bytes: &[u8]);
}

// As they are.
#[derive(Clone, Copy)]
pub struct Plain;

impl Says for Plain {
    fn say(self, bytes: &[u8]) {
        io::write_all(ERROR, bytes);
    }
}

// A message on a word, as a name that is not known.
pub fn say_of(program: &[u8], text: &[u8], word: &[u8]) {
    say_of_by(Plain, program, text, word);
}

// The same by a way to say the word.
pub fn say_of_by<S: Says>(how: S, program: &[u8], text: &[u8], word: &[u8]) {
    say(program, text);
    how.say(word);
    io::write_all(ERROR, b"\n");
}

// The words of an error as they are written.
#[derive(Drop)]
struct Words {
    bytes: [u8; 256],
    length: usize,
}

impl Write for Words {
    fn write_str(&mut self, s: &str) -> fmt::Result {
        let text = s.as_bytes();
        let start = self.length.min(256);
        let n = text.len().min(256 - start);
        self.bytes[start..start + n].copy_from_slice(&text[..n]);
        self.length = start + n;
        Ok(())
    }
}

// How many bytes stand before the number of an error, which its words end with; all, where they have none.
fn before_number(text: &[u8]) -> usize
    ensures { result ≤ length text.now }
{
    match text.iter().rposition(|b| *b == b'(') {
        Some(n) => n.saturating_sub(1),
        None => text.len(),
    }
}

// Why a call failed, in the system's words, and the line's end.
pub fn say_error(error: Error) {
    let mut words = Words {
        bytes: [0; 256],
        length: 0,
    };
    let _ = write!(words, "{error}");
    let text = first(&words.bytes, words.length);
    io::write_all(ERROR, &text[..before_number(text)]);
    io::write_all(ERROR, b"\n");
}

// What a call could not do, and why, in the system's words.
pub fn fail(program: &[u8], what: &[u8], error: Error) {
    fail_by(Plain, program, what, error);
}

// The same by a way to say what it was.
pub fn fail_by<S: Says>(how: S, program: &[u8], what: &[u8], error: Error) {
    begin(program);
    how.say(what);
    io::write_all(ERROR, b": ");
    say_error(error);
}
