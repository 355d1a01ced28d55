// Where an output goes: standard output, what is no plain file, or a file that is replaced whole or not at all, by one that is made in the same folder.
ghost use Rattle.std.specs.Prelude.{◌≡◌, ◌≤◌, length, IfOk};
ghost use Rattle.io.specs.Counts.{IsPrefixLen};
ghost use Rattle.shell.specs.Folder.{folder};

use crate::message::{Escaped, fail};
use files::output::{finish_by, first};
use files::system::{Sink, System, create, has_places, is_invalid, open_append, path_of};
use files::words::{join, same};
use std::fs::File;
use std::io::{Error, ErrorKind};

// Numbers of the system's errors: every name is taken, and there is no room for one.
const EXISTS: i32 = 17;

const INVALID: i32 = 22;

// A file that is made first: how long its name is, and that of the file whose place it takes.
#[derive(Clone, Copy)]
pub struct Made {
    pub beside: usize,
    pub place: usize,
}

// What is written, which is what a path names or a file that is made first.
#[derive(Drop)]
pub struct Target {
    pub sink: Sink,
    pub made: Option<Made>,
}

// The length of a path up to its last slash, with it.
// Ruled out: a file made in another folder.
pub fn folder(path: &[u8]) -> usize
    ensures value { result ≡ folder path.now }
    ensures upper_bound { result ≤ length path.now }
{
    for i in (0..path.len()).rev() {
        if path[i] == b'/' {
            return i + 1;
        }
    }
    0
}

// A length, or the buffer's where that is less.
fn within(n: usize, bytes: &[u8]) -> usize
    ensures { IsPrefixLen result bytes.now }
{
    n.min(bytes.len())
}

// A text at the start of a buffer, and its length; 0 where it is too long.
fn put_text(text: &[u8], buf: &mut [u8]) -> usize
    ensures { IsPrefixLen result buf.new }
{
    join(text, b"", buf)
}

// What a link names, at the start of a buffer, and its length; 0 where a path names no link. Only where the system has no say, as where there is no
// memory for the name, it could not be found out.
fn link<R: System>(rt: &R, path: &[u8], text: &mut [u8]) -> std::io::Result<usize>
    ensures { IfOk result (λ n. IsPrefixLen n text.new) }
{
    match rt.read_link(rt.alloc(), path_of(path)?) {
        Ok(named) => Ok(put_text(named.as_str().as_bytes(), text)),
        Err(e) => match e.raw_os_error() {
            Some(_) => Ok(0),
            None => Err(e),
        },
    }
}

// A text behind the first so many bytes of a buffer, and how long both are; 0 where they are too long.
fn lead(place: &mut [u8], d: usize, text: &[u8]) -> usize {
    let mut before = io::buffer();
    let n = join(first(place, d), b"", &mut before);
    join(&before[..n], text, place)
}

// Where the link at the start of a buffer leads, which is put there; 0 where there is none.
fn follow<R: System>(rt: &R, place: &mut [u8], n: usize) -> std::io::Result<usize> {
    let mut text = io::buffer();
    let path = first(place, n);
    let d = folder(path);
    let m = link(rt, path, &mut text)?;
    if m == 0 {
        return Ok(0);
    }
    let start = if text[0] == b'/' { 0 } else { d };
    Ok(lead(place, start, &text[..m]))
}

// The path of what a path names in the end, at the start of a buffer, and its length. Links are followed, up to forty.
fn resolve<R: System>(rt: &R, path: &[u8], place: &mut [u8]) -> std::io::Result<usize> {
    let mut n = join(path, b"", place);
    for _ in 0..40 {
        let m = follow(rt, place, n)?;
        if m == 0 {
            break;
        }
        n = m;
    }
    Ok(n)
}

// Six letters at the end of a name, by a number.
fn letter(name: &mut [u8], number: u32) {
    let mut left = number;
    for b in name.iter_mut().rev().take(6) {
        *b = b'a' + (left % 26) as u8;
        left /= 26;
    }
}

// Where the names that are tried begin, so that two programs seldom try the same ones.
fn begin_names<R: System>(rt: &R) -> u32 {
    match rt.process_cpu_time() {
        Ok(t) => t.subsec_nanos(),
        Err(_) => 0,
    }
}

// A file of its own, with the mode of a new one, under a name that no other file has.
fn fresh<R: System>(rt: &R, name: &mut [u8]) -> std::io::Result<Sink> {
    if name.len() < 6 {
        return Err(Error::from_raw_os_error(INVALID));
    }
    let number = begin_names(rt);
    for turn in 0..238328 {
        letter(name, number.wrapping_add(turn));
        match create(rt, name) {
            Ok(file) => return Ok(Sink::file(file)),
            Err(e) => {
                if e.kind() != ErrorKind::AlreadyExists {
                    return Err(e);
                }
            }
        }
    }
    Err(Error::from_raw_os_error(EXISTS))
}

// Makes a file in the folder of what a path names in the end.
fn make<R: System>(
    rt: &R,
    path: &[u8],
    place: &mut [u8],
    beside: &mut [u8],
) -> std::io::Result<Target> {
    let found = resolve(rt, path, place)?;
    let n = within(found, place);
    let d = folder(&place[..n]);
    let m = join(&place[..d], b".qsm-XXXXXX", beside);
    let sink = fresh(rt, &mut beside[..m])?;
    Ok(Target {
        sink,
        made: Some(Made {
            beside: m,
            place: n,
        }),
    })
}

// A plain file has places, and can be waited for until it is on the disk.
fn is_plain(file: &File) -> bool {
    if !has_places(file) {
        return false;
    }
    match file.sync_all() {
        Ok(()) => true,
        Err(e) => !is_invalid(e),
    }
}

// What is written for a path: what is there and no plain file, or a file that is made first.
fn open<R: System>(
    rt: &R,
    path: &[u8],
    place: &mut [u8],
    beside: &mut [u8],
) -> std::io::Result<Target> {
    match open_append(rt, path) {
        Ok(file) => {
            if is_plain(&file) {
                return make(rt, path, place, beside);
            }
            Ok(Target {
                sink: Sink::file(file),
                made: None,
            })
        }
        Err(e) => {
            if e.kind() == ErrorKind::NotFound {
                return make(rt, path, place, beside);
            }
            Err(e)
        }
    }
}

// Begins to write what a path names. A minus sign is standard output; what is no plain file, as a FIFO or a terminal, is written itself; a plain file, or
// one that is not there, is replaced in the end. The two buffers keep names for `finish`. Where it can't be written, that is said.
pub fn begin<R: System>(
    rt: &R,
    program: &[u8],
    path: &[u8],
    place: &mut [u8],
    beside: &mut [u8],
) -> Option<Target> {
    if same(path, b"-") {
        return Some(Target {
            sink: Sink::output(rt),
            made: None,
        });
    }
    match open(rt, path, place, beside) {
        Ok(t) => Some(t),
        Err(e) => {
            fail(program, path, e);
            None
        }
    }
}

// Ends it: whether all of it is written where it belongs. A file that was not written whole takes no place. What goes wrong here is said.
pub fn finish<R: System>(
    rt: &R,
    program: &[u8],
    t: Target,
    place: &[u8],
    beside: &[u8],
    whole: bool,
) -> bool {
    let Some(made) = t.made else {
        return whole;
    };
    let name = first(beside, made.beside);
    finish_by(
        rt,
        Escaped,
        program,
        t.sink,
        name,
        first(place, made.place),
        whole,
    )
}
