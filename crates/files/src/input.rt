// Files to read: named by the words of a command, or standard input.
ghost use Rattle.std.specs.Prelude.{IfSome};
ghost use Rattle.io.specs.Counts.{IsPrefixLen};

use crate::command::word_from;
use crate::message::{Plain, Says, fail_by};
use crate::origin::Origin;
use crate::system::{System, failure};
use crate::words::{join, same};
use std::env::FillError;

// An input that is open, and how long its name is.
#[derive(Drop)]
pub struct Input {
    pub from: Origin,
    pub name: usize,
}

// Standard input, and what messages call it at the start of `name`.
// Ruled out: a name longer than its buffer.
pub fn standard<R: System>(rt: &R, name: &mut [u8]) -> Input
    ensures { IsPrefixLen result.name name.new }
{
    let n = join(b"standard input", b"", name);
    Input {
        from: Origin::standard(rt),
        name: n,
    }
}

// Opens the file that an argument names, by a way to say its name; standard input where it is a minus sign, or where there is no such argument and it
// may be missing. What messages call it is put at the start of `name`. Where it can't be opened, that is said.
// Ruled out: a name longer than its buffer.
pub fn open_by<R: System, S: Says>(
    rt: &R,
    how: S,
    program: &[u8],
    place: usize,
    missing: bool,
    name: &mut [u8],
) -> Option<Input>
    ensures { IfSome result (λ i. IsPrefixLen i.name name.new) }
{
    match rt.arg(place, name) {
        Ok(n) => {
            if same(&name[..n], b"-") {
                return Some(standard(rt, name));
            }
            match Origin::open(rt, &name[..n]) {
                Ok(from) => Some(Input { from, name: n }),
                Err(e) => {
                    fail_by(how, program, &name[..n], e);
                    None
                }
            }
        }
        Err(e) => {
            if missing & (e == FillError::NotPresent) {
                return Some(standard(rt, name));
            }
            fail_by(how, program, b"a file's name", failure(e));
            None
        }
    }
}

// Opens the file that word k of the command names, numbered from 0 without options, from an argument on; standard input where there is no such word
// or it is a minus sign. What messages call it is put at the start of `name`. Where it can't be opened, that is said.
// Ruled out: a name longer than its buffer.
pub fn open_from<R: System>(
    rt: &R,
    from: usize,
    program: &[u8],
    k: usize,
    name: &mut [u8],
) -> Option<Input>
    ensures { IfSome result (λ i. IsPrefixLen i.name name.new) }
{
    open_by(rt, Plain, program, word_from(rt, from, k), true, name)
}

// The same from argument 1 on: a program's words.
// Ruled out: a name longer than its buffer.
pub fn open<R: System>(rt: &R, program: &[u8], k: usize, name: &mut [u8]) -> Option<Input>
    ensures { IfSome result (λ i. IsPrefixLen i.name name.new) }
{
    open_from(rt, 1, program, k, name)
}
