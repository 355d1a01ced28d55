// Bytes written: to a sink, or to a file that is replaced whole or not at all.
ghost use Rattle.std.specs.Prelude.{◌≡◌, take, IfSome};
ghost use Rattle.io.specs.Counts.{IsPrefixLen};

use crate::message::{Plain, Says, fail, fail_by};
use crate::system::{Sink, System, create, remove, rename};
use crate::words::join;

// The first n bytes, or all where there are fewer.
// Ruled out: a byte behind them; one of them left out.
pub fn first(bytes: &[u8], n: usize) -> &[u8]
    ensures { result.now ≡ take n bytes.now }
{
    let some = n.min(bytes.len());
    &bytes[..some]
}

// Writes the first n bytes, or all where there are fewer.
pub fn write_first(to: &Sink, bytes: &[u8], n: usize) -> std::io::Result<()> {
    to.write_all(first(bytes, n))
}

// A file that is being written, and how long its name is.
#[derive(Drop)]
pub struct Output {
    pub sink: Sink,
    pub name: usize,
}

// Begins to replace the file at a path: makes one beside it, whose name, the path and `.new`, is put at the start of `name`. Where it can't
// be made, as where there is one already, that is said.
// Ruled out: a file made under a name cut short; a name longer than its buffer.
pub fn begin<R: System>(rt: &R, program: &[u8], path: &[u8], name: &mut [u8]) -> Option<Output>
    ensures { IfSome result (λ o. IsPrefixLen o.name name.new) }
{
    let n = join(path, b".new", name);
    match create(rt, &name[..n]) {
        Ok(file) => Some(Output {
            sink: Sink::file(file),
            name: n,
        }),
        Err(e) => {
            fail(program, &name[..n], e);
            None
        }
    }
}

// A file that was written takes the place of the one at the path.
fn placed<R: System>(rt: &R, sink: Sink, name: &[u8], path: &[u8]) -> std::io::Result<()> {
    sink.keep()?;
    rename(rt, name, path)
}

// Ends it: a file that was written whole takes the place of the one at the path. Otherwise the new one is removed and the old one stands.
// Whether it was replaced; where a whole file was not, that is said.
pub fn finish<R: System>(
    rt: &R,
    program: &[u8],
    sink: Sink,
    name: &[u8],
    path: &[u8],
    whole: bool,
) -> bool {
    finish_by(rt, Plain, program, sink, name, path, whole)
}

// The same by a way to say the path.
pub fn finish_by<R: System, S: Says>(
    rt: &R,
    how: S,
    program: &[u8],
    sink: Sink,
    name: &[u8],
    path: &[u8],
    whole: bool,
) -> bool {
    if whole {
        match placed(rt, sink, name, path) {
            Ok(()) => return true,
            Err(e) => fail_by(how, program, path, e),
        }
    }
    let _ = remove(rt, name);
    false
}

// Replaces the file at a path by one with these bytes, whole or not at all. Where it can't, that is said.
pub fn replace<R: System>(rt: &R, program: &[u8], path: &[u8], bytes: &[u8]) -> bool {
    let mut name = io::buffer();
    let Some(o) = begin(rt, program, path, &mut name) else {
        return false;
    };
    let new = &name[..o.name];
    let written = o.sink.write_all(bytes);
    if let Err(e) = written {
        fail(program, new, e);
    }
    finish(rt, program, o.sink, new, path, written.is_ok())
}
