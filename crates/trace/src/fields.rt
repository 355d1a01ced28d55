// The fields of a record of each kind that has some: a hold, a long hold, a read, a write.
ghost use Rattle.std.specs.Prelude.{◌≡◌};
ghost use Rattle.trace.specs.Trace.{long, supervisor_of, width_of, hold_record, long_hold_record, read_record, write_record};

use crate::Parsed;
use qsm::event::{Access, Event};

fn long(high: u16, low: u16) -> u32
    ensures { result ≡ long high low }
{
    (high as u32) * 65536 + (low as u32)
}

fn supervisor(b: u8) -> bool
    ensures { result ≡ supervisor_of b }
{
    128 <= b
}

fn width(b: u8) -> u8
    ensures { result ≡ width_of b }
{
    b % 128
}

pub(crate) fn hold(rest: &[u8]) -> Parsed
    ensures { result ≡ hold_record rest.now }
{
    if rest.len() < 5 {
        return Parsed::Cut;
    }
    let clocks = steps::word(rest[3], rest[4]);
    Parsed::Record(Event::Hold(rest[1], rest[2] != 0, clocks as u32), 5)
}

pub(crate) fn long_hold(rest: &[u8]) -> Parsed
    ensures { result ≡ long_hold_record rest.now }
{
    if rest.len() < 7 {
        return Parsed::Cut;
    }
    let clocks = long(steps::word(rest[3], rest[4]), steps::word(rest[5], rest[6]));
    Parsed::Record(Event::Hold(rest[1], rest[2] != 0, clocks), 7)
}

pub(crate) fn read(rest: &[u8]) -> Parsed
    ensures { result ≡ read_record rest.now }
{
    if rest.len() < 4 {
        return Parsed::Cut;
    }
    let b = rest[1];
    let offset = steps::word(rest[2], rest[3]);
    let a = Access::Read(supervisor(b), width(b), offset);
    Parsed::Record(Event::Access(a), 4)
}

pub(crate) fn write(rest: &[u8]) -> Parsed
    ensures { result ≡ write_record rest.now }
{
    if rest.len() < 8 {
        return Parsed::Cut;
    }
    let b = rest[1];
    let offset = steps::word(rest[2], rest[3]);
    let value = long(steps::word(rest[4], rest[5]), steps::word(rest[6], rest[7]));
    let a = Access::Write(supervisor(b), width(b), offset, value);
    Parsed::Record(Event::Access(a), 8)
}
