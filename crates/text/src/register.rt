// The registers that an access touches, by their names.
ghost use Rattle.std.specs.Prelude.{◌≡◌, ◌+◌};
ghost use Rattle.text.specs.Line.{puts};
ghost use Rattle.text.specs.Register.{part_of, pair, own, serial, command, queue, register, registers};

use crate::line::Line;
use qsm::map::{OwnWord, Place, QueueWord, SerialWord};

// What of a register word is named.
#[derive(Clone, Copy)]
pub enum Part {
    Upper,
    Lower,
    Whole,
}

fn part_of(width: u8, offset: u32) -> Part
    ensures { result ≡ part_of width offset }
{
    if width == 1 {
        if offset % 2 == 0 {
            Part::Upper
        } else {
            Part::Lower
        }
    } else {
        Part::Whole
    }
}

impl Line {
    // Two registers that share a word.
    fn pair(self, p: Part, upper: &[u8], lower: &[u8]) -> Line
        ensures { result ≡ puts self (pair p upper.now lower.now) }
    {
        match p {
            Part::Upper => self.write(upper),
            Part::Lower => self.write(lower),
            Part::Whole => self.write(upper).write(b"/").write(lower),
        }
    }

    fn own(self, p: Part, w: OwnWord) -> Line
        ensures { result ≡ puts self (own p w) }
    {
        match w {
            OwnWord::Qsmcr => self.write(b"QSMCR"),
            OwnWord::QilrQivr => self.pair(p, b"QILR", b"QIVR"),
            OwnWord::Portqs => self.write(b"PORTQS"),
            OwnWord::PqsparDdrqs => self.pair(p, b"PQSPAR", b"DDRQS"),
        }
    }

    fn serial(self, w: SerialWord) -> Line
        ensures { result ≡ puts self (serial w) }
    {
        match w {
            SerialWord::Sccr0 => self.write(b"SCCR0"),
            SerialWord::Sccr1 => self.write(b"SCCR1"),
            SerialWord::Scsr => self.write(b"SCSR"),
            SerialWord::Scdr => self.write(b"SCDR"),
        }
    }

    // Two command bytes share a word.
    fn command(self, p: Part, k: u8) -> Line
        ensures { result ≡ puts self (command p k) }
    {
        let first = k as u64 * 2;
        let start = self.write(b"command RAM ");
        match p {
            Part::Upper => start.decimal(3, first),
            Part::Lower => start.decimal(3, first + 1),
            Part::Whole => start.decimal(3, first).write(b"/").decimal(3, first + 1),
        }
    }

    fn queue(self, p: Part, w: QueueWord) -> Line
        ensures { result ≡ puts self (queue p w) }
    {
        match w {
            QueueWord::Spcr0 => self.write(b"SPCR0"),
            QueueWord::Spcr1 => self.write(b"SPCR1"),
            QueueWord::Spcr2 => self.write(b"SPCR2"),
            QueueWord::Spcr3Spsr => self.pair(p, b"SPCR3", b"SPSR"),
            QueueWord::Receive(k) => self.write(b"receive RAM ").decimal(3, k as u64),
            QueueWord::Transmit(k) => self.write(b"transmit RAM ").decimal(3, k as u64),
            QueueWord::Command(k) => self.command(p, k),
        }
    }

    fn register(self, part: Part, p: Place) -> Line
        ensures { result ≡ puts self (register part p) }
    {
        match p {
            Place::Own(w) => self.own(part, w),
            Place::Serial(w) => self.serial(w),
            Place::Queue(w) => self.queue(part, w),
            Place::Hole => self.write(b"unmapped"),
        }
    }

    // The register at an offset; of a long, those of both words.
    // Ruled out: QILR for the byte at 05; a hole named after its neighbour; one register for a long.
    pub fn registers(self, width: u8, offset: u16) -> Line
        ensures { result ≡ puts self (registers width offset) }
    {
        let first = offset as u32;
        let start = self.register(part_of(width, first), qsm::map::decode(first));
        if width == 4 {
            start
                .write(b" and ")
                .register(Part::Whole, qsm::map::decode(first + 2))
        } else {
            start
        }
    }
}
