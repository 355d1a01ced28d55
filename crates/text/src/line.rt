// A line of text, made from left to right. What doesn't fit is dropped; the lines of an answer and of a record always fit.
ghost use Rattle.std.specs.Prelude.{◌≡◌};
ghost use Rattle.text.specs.Digits.{decimal_digit, hex_digit, decimal, hex_byte, hex_word, hex_long, number};
ghost use Rattle.text.specs.Line.{empty, put, puts};

// The bytes of a line, and how many of them it has.
#[derive(Clone, Copy)]
pub struct Line {
    pub bytes: [u8; 184],
    pub length: usize,
}

// The last digit of n in decimal.
fn decimal_digit(n: u64) -> u8
    ensures { result ≡ decimal_digit n }
{
    48 + (n % 10) as u8
}

// The last digit of n in hexadecimal.
fn hex_digit(n: u8) -> u8
    ensures { result ≡ hex_digit n }
{
    let d = n % 16;
    if d < 10 { 48 + d } else { 55 + d }
}

impl Line {
    // Ruled out: a line with a byte; one that says it is full.
    pub fn empty() -> Line
        ensures { result ≡ empty }
    {
        Line {
            bytes: [0u8; 184],
            length: 0,
        }
    }

    // Ruled out: a byte over an earlier one; a byte dropped while there is room.
    pub fn put(mut self, b: u8) -> Line
        ensures { result ≡ put self b }
    {
        let at = self.length;
        if at < 184 {
            self.bytes[at] = b;
            self.length = at + 1;
        }
        self
    }

    // Ruled out: the first byte alone; the bytes in reverse.
    #[tactic(auto, using(crate::proofs::Puts::puts_none, crate::proofs::Puts::puts_more))]
    pub fn write(self, text: &[u8]) -> Line
        ensures { result ≡ puts self text.now }
    {
        let mut line = self;
        for b in text {
            line = line.put(*b);
        }
        line
    }

    // A number in decimal without leading zeros, in at most so many digits.
    // Ruled out: the digits in reverse; a leading zero; nothing for 0.
    pub fn decimal(self, digits: u8, n: u64) -> Line
        ensures { result ≡ puts self (decimal digits n) }
    {
        if digits == 0 {
            return self;
        }
        if n < 10 {
            return self.put(decimal_digit(n));
        }
        self.decimal(digits - 1, n / 10).put(decimal_digit(n))
    }

    // The number at the start of a line, and what parts it from the rest.
    // Ruled out: a number cut off at the left; no space after it.
    pub fn number(self, n: u64) -> Line
        ensures { result ≡ puts self (number n) }
    {
        self.decimal(20, n).write(b": ")
    }

    // Ruled out: the lower digit first; a leading zero left out.
    pub fn hex_byte(self, n: u8) -> Line
        ensures { result ≡ puts self (hex_byte n) }
    {
        self.put(hex_digit(n / 16)).put(hex_digit(n))
    }

    // Ruled out: the lower byte first; the upper byte left out.
    pub fn hex_word(self, n: u16) -> Line
        ensures { result ≡ puts self (hex_word n) }
    {
        self.hex_byte(steps::upper_byte(n))
            .hex_byte(steps::lower_byte(n))
    }

    // Ruled out: the lower word first; the upper word left out.
    pub fn hex_long(self, n: u32) -> Line
        ensures { result ≡ puts self (hex_long n) }
    {
        self.hex_word((n / 65536 % 65536) as u16)
            .hex_word((n % 65536) as u16)
    }
}
