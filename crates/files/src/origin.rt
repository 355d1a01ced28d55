// Where bytes come from: standard input, or a file, which is closed where this is dropped.
ghost use Rattle.std.specs.Prelude.{◌≤◌, length, IfOk};

use crate::system::{System, has_places, no_error, open_read};
use std::cell::{Cell, OnceCell};
use std::fs::File;
use std::io::{Error, ErrorKind, Read, Seek, SeekFrom};
use std::rt::Stdin;

// The system's number of the error of what has no places, as a pipe.
const NO_PLACE: i32 = 29;

// It keeps why its last read that failed did, and its place.
#[derive(Drop)]
pub struct Origin {
    stdin: Stdin,
    // A file, or standard input from where a program went to another place of it.
    file: OnceCell<File>,
    standard: bool,
    plain: bool,
    place: Cell<u64>,
    error: Cell<Error>,
}

impl Origin {
    // Standard input.
    pub fn standard<R: System>(rt: &R) -> Origin {
        Origin {
            stdin: rt.input(),
            file: OnceCell::new(),
            standard: true,
            plain: is_file(rt),
            place: Cell::new(0),
            error: Cell::new(no_error()),
        }
    }

    // The file at a path.
    pub fn open<R: System>(rt: &R, path: &[u8]) -> std::io::Result<Origin> {
        let file = open_read(rt, path)?;
        let plain = has_places(&file);
        Ok(Origin {
            stdin: rt.input(),
            file: OnceCell::from(file),
            standard: false,
            plain,
            place: Cell::new(0),
            error: Cell::new(no_error()),
        })
    }

    pub fn is_standard(&self) -> bool {
        self.standard
    }

    // It has places, as a plain file: a read of it does not wait for somebody.
    pub fn is_plain(&self) -> bool {
        self.plain
    }

    // Its place, where it has places; else 0. Standard input's is how many bytes are read of it.
    pub fn place(&self) -> u64 {
        if !self.plain {
            return 0;
        }
        match self.file.get() {
            Some(f) => {
                let mut file = f;
                file.seek(SeekFrom::Current(0)).unwrap_or(0)
            }
            None => self.place.get(),
        }
    }

    // Goes to the start of a file, or says why it can't: a pipe has none, nor has standard input here.
    pub fn rewind(&self) -> std::io::Result<()> {
        let Some(f) = self.file.get() else {
            return Err(Error::from_raw_os_error(NO_PLACE));
        };
        let mut file = f;
        file.seek(SeekFrom::Start(0))?;
        self.place.set(0);
        Ok(())
    }

    // Why the last read that failed did.
    pub fn error(&self) -> Error {
        self.error.get()
    }

    fn try_read(&self, buf: &mut [u8]) -> std::io::Result<usize>
        ensures bound { IfOk result (λ n. n ≤ length buf.new) }
    {
        match self.file.get() {
            Some(f) => {
                let mut file = f;
                file.read(buf)
            }
            None => {
                let mut stdin = self.stdin;
                stdin.read(buf)
            }
        }
    }

    // One read. A call that a signal interrupts is made again.
    // Ruled out: more bytes reported than the buffer has.
    pub fn read(&self, buf: &mut [u8]) -> std::io::Result<usize>
        ensures bound { IfOk result (λ n. n ≤ length buf.new) }
    {
        for _ in 0..u64::MAX {
            match self.try_read(buf) {
                Ok(n) => {
                    self.place.set(self.place.get().saturating_add(n as u64));
                    return Ok(n);
                }
                Err(e) => {
                    self.error.set(e);
                    if e.kind() != ErrorKind::Interrupted {
                        return Err(e);
                    }
                }
            }
        }
        Err(self.error.get())
    }

    // The file where it is one, or standard input opened anew, which has the places of the file that it is.
    fn seekable<R: System>(&self, rt: &R) -> Option<&File> {
        if self.plain & self.file.get().is_none() {
            if let Ok(f) = open_read(rt, b"/dev/stdin") {
                let _ = self.file.set(f);
            }
        }
        self.file.get()
    }

    // Goes to a place, or, where it can't, to its start: a pipe has no other place. Whether it could.
    pub fn go_to<R: System>(&self, rt: &R, place: u64) -> bool {
        let Some(f) = self.seekable(rt) else {
            return false;
        };
        let mut file = f;
        if file.seek(SeekFrom::End(0)).is_ok_and(|end| end >= place) {
            if file.seek(SeekFrom::Start(place)).is_ok() {
                self.place.set(place);
                return true;
            }
        }
        if file.seek(SeekFrom::Start(0)).is_ok() {
            self.place.set(0);
        }
        false
    }
}

// Whether standard input is a plain file.
fn is_file<R: System>(rt: &R) -> bool {
    rt.metadata("/dev/stdin").is_ok_and(|m| m.is_file())
}
