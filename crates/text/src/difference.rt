// The line of a field in which two answers differ: the answer's number, the field's name, and what it is in both logs.
ghost use Rattle.std.specs.Prelude.{◌≡◌};
ghost use Rattle.text.specs.Line.{puts, Shows};
ghost use Rattle.text.specs.Difference.{field_name, foreign, kind_text, refusal_text, pins_text, level_text, field_text, difference_line};

use crate::answer::unnamed;
use crate::line::Line;
use crate::log::{Logged, foreign_kind};
use answers::Field;
use qsm::event::Answer;

impl Line {
    // Ruled out: the name of another field; one name for two.
    pub fn field_name(self, f: Field) -> Line
        ensures { result ≡ puts self (field_name f) }
    {
        match f {
            Field::Kind => self.write(b"kind"),
            Field::Refusal => self.write(b"refusal"),
            Field::Value => self.write(b"value"),
            Field::Levels => self.write(b"levels"),
            Field::Mask => self.write(b"mask"),
            Field::Level => self.write(b"level"),
            Field::Vector => self.write(b"vector"),
            Field::Clock => self.write(b"clock"),
        }
    }

    // A byte that no answer of the model has there.
    fn foreign(self, b: u8) -> Line
        ensures { result ≡ puts self (foreign b) }
    {
        self.write(b"hex ").hex_byte(b)
    }

    fn kind_text(self, k: u8) -> Line
        ensures { result ≡ puts self (kind_text k) }
    {
        if foreign_kind(k) {
            self.foreign(k)
        } else {
            self.hex_byte(k)
        }
    }

    fn refusal_text(self, n: u8) -> Line
        ensures { result ≡ puts self (refusal_text n) }
    {
        if unnamed(n) {
            self.foreign(n)
        } else {
            self.refusal(n)
        }
    }

    // The driven pins with their levels, or the byte b.
    fn pins_text(self, b: u8, a: Answer) -> Line
        ensures { result ≡ puts self (pins_text b a) }
    {
        if (a.levels & a.mask) != a.levels {
            self.foreign(b)
        } else {
            self.pins(a.mask, a.levels)
        }
    }

    fn level_text(self, n: u8) -> Line
        ensures { result ≡ puts self (level_text n) }
    {
        if n > 7 {
            self.foreign(n)
        } else {
            self.decimal(3, n as u64)
        }
    }

    // Ruled out: a field other than f; a level of a pin that is not driven named after the pin.
    pub fn field_text(self, f: Field, l: Logged) -> Line
        ensures { result ≡ puts self (field_text f l) }
    {
        let a = l.answer;
        match f {
            Field::Kind => self.kind_text(l.kind),
            Field::Refusal => self.refusal_text(a.refusal),
            Field::Value => self.hex_long(a.value),
            Field::Levels => self.pins_text(a.levels, a),
            Field::Mask => self.pins_text(a.mask, a),
            Field::Level => self.level_text(a.level),
            Field::Vector => self.hex_byte(a.vector),
            Field::Clock => self.decimal(20, a.clock),
        }
    }
}

// The line of field f of answer n, x in the first log and y in the second.
// Ruled out: the logs exchanged; a line cut short; a number other than n.
pub fn difference_line(n: u64, f: Field, x: Logged, y: Logged) -> Line
    ensures { Shows result (difference_line n f x y) }
{
    Line::empty()
        .number(n)
        .field_name(f)
        .write(b": A ")
        .field_text(f, x)
        .write(b", B ")
        .field_text(f, y)
        .put(10)
}
