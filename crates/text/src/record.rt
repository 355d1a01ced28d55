// The line of a record: its number, its kind, and the fields of its event.
ghost use Rattle.std.specs.Prelude.{◌≡◌};
ghost use Rattle.text.specs.Line.{puts, Shows};
ghost use Rattle.text.specs.Record.{privilege, place, long, hold, access, event, record_line};

use crate::line::Line;
use qsm::event::{Access, Event};

impl Line {
    fn privilege(self, supervisor: bool) -> Line
        ensures { result ≡ puts self (privilege supervisor) }
    {
        if supervisor {
            self.write(b" as supervisor, width ")
        } else {
            self.write(b" as user, width ")
        }
    }

    // Who accesses what: supervisor or user, the width, the registers and the offset.
    fn place(self, supervisor: bool, width: u8, offset: u16) -> Line
        ensures { result ≡ puts self (place supervisor width offset) }
    {
        self.privilege(supervisor)
            .decimal(3, width as u64)
            .write(b", ")
            .registers(width, offset)
            .write(b" at ")
            .hex_word(offset)
    }

    // What a long hold's line has before a hold's.
    fn long(self, is: bool) -> Line
        ensures { result ≡ puts self (long is) }
    {
        if is { self.write(b"long ") } else { self }
    }

    fn hold(self, pins: u8, rxd: bool, clocks: u32) -> Line
        ensures { result ≡ puts self (hold pins rxd clocks) }
    {
        let start = self.write(b"hold pins ").hex_byte(pins);
        if rxd {
            start.write(b", RXD 1, clocks ").decimal(10, clocks as u64)
        } else {
            start.write(b", RXD 0, clocks ").decimal(10, clocks as u64)
        }
    }

    fn access(self, a: Access) -> Line
        ensures { result ≡ puts self (access a) }
    {
        match a {
            Access::Read(supervisor, width, offset) => {
                self.write(b"read").place(supervisor, width, offset)
            }
            Access::Write(supervisor, width, offset, value) => self
                .write(b"write")
                .place(supervisor, width, offset)
                .write(b", value ")
                .hex_long(value),
        }
    }

    fn event(self, e: Event) -> Line
        ensures { result ≡ puts self (event e) }
    {
        match e {
            Event::Reset => self.write(b"reset"),
            Event::Hold(pins, rxd, clocks) => self.hold(pins, rxd, clocks),
            Event::Access(a) => self.access(a),
        }
    }
}

// The line of record n, of a kind and its event.
// Ruled out: a line cut short; a read shown as a write; the fields of another record; 02 and 05 shown alike.
pub fn record_line(n: u64, kind: u8, e: Event) -> Line
    ensures { Shows result (record_line n kind e) }
{
    Line::empty().number(n).long(kind == 5).event(e).put(10)
}
