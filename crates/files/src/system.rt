// What programs have of the system, and the files that they read and write by it.
ghost use Rattle.std.specs.Prelude.{◌≤◌, length, IfOk};

use std::cell::Cell;
use std::env::FillError;
use std::fs::{File, OpenOptions};
use std::io::{Error, IsTerminal, Print, Seek, SeekFrom, Write};
use std::rt::{CpuClock, Env, Files, HostRuntime, Stderr, Stdin, Stdout};

// Files, arguments, the processor's time, memory and the three standard streams.
pub trait System: Files<File = File> + Env + CpuClock + Alloc {
    fn input(&self) -> Stdin;

    fn output(&self) -> Stdout;

    fn error(&self) -> Stderr;
}

impl System for HostRuntime {
    fn input(&self) -> Stdin {
        self.stdin()
    }

    fn output(&self) -> Stdout {
        self.stdout()
    }

    fn error(&self) -> Stderr {
        self.stderr()
    }
}

// Numbers of the system's errors.
const INVALID: i32 = 22;

const TOO_LONG: i32 = 36;

const NO_TEXT: i32 = 84;

// A file cannot wait until it is on the disk, or no number is one.
pub fn is_invalid(e: Error) -> bool {
    e.raw_os_error() == Some(INVALID)
}

// Why an argument is none of so many bytes: it is missing, or it is longer than any path.
pub fn failure(e: FillError) -> Error {
    match e {
        FillError::NotPresent => Error::from_raw_os_error(INVALID),
        FillError::TooLong => Error::from_raw_os_error(TOO_LONG),
    }
}

// No error: what is kept before a call has failed.
pub(crate) fn no_error() -> Error {
    Error::from_raw_os_error(0)
}

// A path as text. Today's library opens no file whose name is not UTF-8.
pub fn path_of(bytes: &[u8]) -> std::io::Result<&str> {
    match std::str::from_utf8(bytes) {
        Ok(path) => Ok(path),
        Err(_) => Err(Error::from_raw_os_error(NO_TEXT)),
    }
}

pub fn open_read<R: System>(rt: &R, path: &[u8]) -> std::io::Result<File> {
    OpenOptions::new().read(true).open(rt, path_of(path)?)
}

// At the end of a file that is there.
pub fn open_append<R: System>(rt: &R, path: &[u8]) -> std::io::Result<File> {
    OpenOptions::new().append(true).open(rt, path_of(path)?)
}

// A new file, at a path where there is none.
pub fn create<R: System>(rt: &R, path: &[u8]) -> std::io::Result<File> {
    OpenOptions::new()
        .write(true)
        .create_new(true)
        .open(rt, path_of(path)?)
}

pub fn rename<R: System>(rt: &R, from: &[u8], to: &[u8]) -> std::io::Result<()> {
    rt.rename(path_of(from)?, path_of(to)?)
}

pub fn remove<R: System>(rt: &R, path: &[u8]) -> std::io::Result<()> {
    rt.remove_file(path_of(path)?)
}

// Whether a file has places, as a plain one: a pipe and a terminal have none.
pub fn has_places(file: &File) -> bool {
    let mut f = file;
    f.seek(SeekFrom::Current(0)).is_ok()
}

#[derive(Drop)]
enum To {
    Output(Stdout),
    Error(Stderr),
    File(File),
}

// Where bytes go: standard output, standard error, or a file, which is closed where this is dropped. It keeps why its last call that failed did.
#[derive(Drop)]
pub struct Sink {
    to: To,
    error: Cell<Error>,
}

impl Sink {
    pub fn output<R: System>(rt: &R) -> Sink {
        Sink {
            to: To::Output(rt.output()),
            error: Cell::new(no_error()),
        }
    }

    pub fn error_output<R: System>(rt: &R) -> Sink {
        Sink {
            to: To::Error(rt.error()),
            error: Cell::new(no_error()),
        }
    }

    pub fn file(file: File) -> Sink {
        Sink {
            to: To::File(file),
            error: Cell::new(no_error()),
        }
    }

    // Why the last call that failed did.
    pub fn error(&self) -> Error {
        self.error.get()
    }

    pub fn is_terminal(&self) -> bool {
        match &self.to {
            To::Output(s) => s.is_terminal(),
            To::Error(s) => s.is_terminal(),
            To::File(f) => f.is_terminal(),
        }
    }

    fn try_write(&self, bytes: &[u8]) -> std::io::Result<usize>
        ensures bound { IfOk result (λ n. n ≤ length bytes.now) }
    {
        match &self.to {
            To::Output(s) => s.write_some(bytes),
            To::Error(s) => s.write_some(bytes),
            To::File(f) => {
                let mut file = f;
                file.write(bytes)
            }
        }
    }

    // One write: how many bytes the system took, or why none.
    // Ruled out: more bytes reported than were handed on.
    pub fn write_some(&self, bytes: &[u8]) -> std::io::Result<usize>
        ensures bound { IfOk result (λ n. n ≤ length bytes.now) }
    {
        let r = self.try_write(bytes);
        if let Err(e) = &r {
            self.error.set(*e);
        }
        r
    }

    fn try_write_all(&self, bytes: &[u8]) -> std::io::Result<()> {
        match &self.to {
            To::Output(s) => Print::write_all(s, bytes),
            To::Error(s) => Print::write_all(s, bytes),
            To::File(f) => {
                let mut file = f;
                file.write_all(bytes)
            }
        }
    }

    // Writes all of them, or says why it can't.
    pub fn write_all(&self, bytes: &[u8]) -> std::io::Result<()> {
        let r = self.try_write_all(bytes);
        if let Err(e) = &r {
            self.error.set(*e);
        }
        r
    }

    // Waits until a file's bytes are all on the disk, and closes it.
    pub fn keep(self) -> std::io::Result<()> {
        match &self.to {
            To::File(f) => f.sync_all(),
            _ => Ok(()),
        }
    }
}
