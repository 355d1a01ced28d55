// The line of an answer: its number, its refusal by name, its value, the driven pins with their levels, the request, and the clock if it has
// one.
ghost use Rattle.std.specs.Prelude.{◌≡◌};
ghost use Rattle.steps.specs.Bits.{bit};
ghost use Rattle.text.specs.Line.{puts, Shows};
ghost use Rattle.text.specs.Answer.{unnamed, refusal, pin, each_pin, pins, request, fields, clock, answer_line};

use crate::line::Line;
use crate::log::Logged;
use answers::CLOCKED;
use qsm::event::Answer;

// A refusal that no answer has: an access is refused 1 to 4, a driver's event 9 too (02, L11).
// Ruled out: 9 alone; 5, which stops a trace.
pub fn unnamed(number: u8) -> bool
    ensures { result ≡ unnamed number }
{
    (4 < number) & (number != 9)
}

impl Line {
    // Ruled out: 3 and 4 swapped; a name of a refusal for none.
    pub fn refusal(self, number: u8) -> Line
        ensures { result ≡ puts self (refusal number) }
    {
        match number {
            0 => self.write(b"ok"),
            1 => self.write(b"refusal 1 (misshapen)"),
            2 => self.write(b"refusal 2 (unmapped)"),
            3 => self.write(b"refusal 3 (unmodelled bit)"),
            4 => self.write(b"refusal 4 (guarded field)"),
            9 => self.write(b"refusal 9 (not yours)"),
            _ => self.write(b"unknown refusal"),
        }
    }

    // A pin by its name with its level, if it is driven: bit 0 of each set.
    fn pin(self, name: &[u8], mask: u8, levels: u8) -> Line
        ensures { result ≡ puts self (pin name.now (bit 0 mask) (bit 0 levels)) }
    {
        if mask % 2 == 0 {
            return self;
        }
        if levels % 2 == 0 {
            return self.write(name).write(b"=0");
        }
        self.write(name).write(b"=1")
    }

    fn each_pin(self, mask: u8, levels: u8) -> Line
        ensures { result ≡ puts self (each_pin mask levels) }
    {
        self.pin(b" MISO", mask, levels)
            .pin(b" MOSI", mask / 2, levels / 2)
            .pin(b" SCK", mask / 4, levels / 4)
            .pin(b" PCS0", mask / 8, levels / 8)
            .pin(b" PCS1", mask / 16, levels / 16)
            .pin(b" PCS2", mask / 32, levels / 32)
            .pin(b" PCS3", mask / 64, levels / 64)
            .pin(b" TXD", mask / 128, levels / 128)
    }

    // Ruled out: a pin that is not driven; the level of another pin.
    pub fn pins(self, mask: u8, levels: u8) -> Line
        ensures { result ≡ puts self (pins mask levels) }
    {
        if mask == 0 {
            self.write(b"no pin driven")
        } else {
            self.write(b"pins").each_pin(mask, levels)
        }
    }

    // Ruled out: level and vector exchanged; a request at level 0.
    pub fn request(self, level: u8, vector: u8) -> Line
        ensures { result ≡ puts self (request level vector) }
    {
        if level == 0 {
            self.write(b"no request")
        } else {
            self.write(b"request level ")
                .decimal(3, level as u64)
                .write(b" vector ")
                .hex_byte(vector)
        }
    }

    fn fields(self, a: Answer) -> Line
        ensures { result ≡ puts self (fields a) }
    {
        self.refusal(a.refusal)
            .write(b", value ")
            .hex_long(a.value)
            .write(b", ")
            .pins(a.mask, a.levels)
            .write(b", ")
            .request(a.level, a.vector)
    }

    fn clock(self, kind: u8, clocks: u64) -> Line
        ensures { result ≡ puts self (clock kind clocks) }
    {
        if kind == CLOCKED {
            self.write(b", clock ").decimal(20, clocks)
        } else {
            self
        }
    }
}

// The line of answer n.
// Ruled out: a line cut short; the value or a pin of another answer; a number other than n; a clock for kind 10.
pub fn answer_line(n: u64, l: Logged) -> Line
    ensures { Shows result (answer_line n l) }
{
    let a = l.answer;
    Line::empty()
        .number(n)
        .fields(a)
        .clock(l.kind, a.clock)
        .put(10)
}
