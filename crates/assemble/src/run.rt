// Lines taken one after the other, however the text comes in: byte by byte they are collected until one is whole.
ghost use Rattle.std.specs.Prelude.{◌≤◌};

use files::origin::Origin;
use files::output::write_first;
use files::pieces::fill;
use files::system::{Sink, System};
use qsm::event::Event;
use tool_assemble::encode::encode;
use tool_assemble::item::{Fault, Item, parse};
use tool_assemble::sent::{Sent, bit_hold, first};

// Why a text is not assembled: a line, by its number from 1, and the column; or the input or the trace.
#[derive(Clone, Copy)]
pub enum Stop {
    Bad {
        line: u64,
        column: u64,
        fault: Fault,
    },
    TooLong {
        line: u64,
    },
    NotRead,
    NotWritten,
    TooMuch,
}

// Where a run stands: the bytes of a line that are there, its number from 1, and the records written.
#[derive(Drop)]
struct Run {
    line: [u8; 1024],
    have: usize,
    number: u64,
    records: u64,
    ghost inside: { have ≤ 1024 },
}

fn write_record(to: &Sink, kind: u8, e: Event) -> Result<(), Stop> {
    let r = encode(kind, e);
    match write_first(to, &r.bytes, r.length) {
        Ok(()) => Ok(()),
        Err(_) => Err(Stop::NotWritten),
    }
}

// The holds of a character, whose first bit is bit k of the text.
fn send_byte(to: &Sink, s: Sent, byte: u8, k: u32) -> Result<(), Stop>
    requires { k ≤ 4294967000 }
{
    for i in 0..10 {
        let b = bit_hold(s, byte, i, k + i as u32);
        write_record(to, b.kind, b.event)?;
    }
    Ok(())
}

// The holds of a text, from its start in a line on: at most 1,024 characters. How many holds they are.
fn send(to: &Sink, s: Sent, line: &[u8]) -> Result<u64, Stop> {
    let mut at = line.len().saturating_sub(s.start);
    for k in 0..1024u32 {
        let Some(c) = first(&line[at..]) else {
            return Ok(k as u64 * 10);
        };
        send_byte(to, s, c.byte, k * 10)?;
        at += c.length;
    }
    Ok(10240)
}

impl Run {
    fn start() -> Run {
        Run {
            line: [0; 1024],
            have: 0,
            number: 1,
            records: 0,
        }
    }

    // A line has ended: what it says is written.
    fn end_line(&mut self, to: &Sink) -> Result<(), Stop> {
        let line = &self.line[..self.have];
        let written = match parse(line) {
            Ok(None) => 0,
            Ok(Some(Item::Record(kind, e))) => {
                write_record(to, kind, e)?;
                1
            }
            Ok(Some(Item::Text(s))) => send(to, s, line)?,
            Err(wrong) => {
                return Err(Stop::Bad {
                    line: self.number,
                    column: self.have.saturating_sub(wrong.left) as u64 + 1,
                    fault: wrong.fault,
                });
            }
        };
        self.records = self.records.saturating_add(written);
        Ok(())
    }

    // One byte more.
    fn take(&mut self, to: &Sink, b: u8) -> Result<(), Stop> {
        if b == b'\n' {
            self.end_line(to)?;
            self.have = 0;
            self.number = self.number.saturating_add(1);
            return Ok(());
        }
        if self.have == 1024 {
            return Err(Stop::TooLong { line: self.number });
        }
        self.line[self.have] = b;
        self.have += 1;
        Ok(())
    }
}

// The records of a text: how many they are. The end of the text ends its last line.
pub fn assemble<R: System>(rt: &R, from: &Origin, to: &Sink) -> Result<u64, Stop> {
    let mut buf = io::large_buffer();
    let mut run = Run::start();
    for _ in 0..u64::MAX {
        let Ok(f) = fill(rt, from, &mut buf, 0, false) else {
            return Err(Stop::NotRead);
        };
        if f.ended {
            run.end_line(to)?;
            return Ok(run.records);
        }
        for b in &buf[..f.total] {
            run.take(to, *b)?;
        }
    }
    Err(Stop::TooMuch)
}
