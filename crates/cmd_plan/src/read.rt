// Set-points as text, a line each: select and bits in decimal, the word in hexadecimal. A number sign begins a comment.
use tool_plan::SetPoints;

// What is wrong with a line of the set-points.
#[derive(Clone, Copy, PartialEq, Eq)]
pub enum Fault {
    NoNumber,
    LargeNumber,
    ManyWords,
    FewWords,
    ManyPoints,
    Select,
    Bits,
    Word,
}

// The first fault of a text, with its line and column, from 1.
#[derive(Clone, Copy, PartialEq, Eq)]
pub struct Misread {
    pub fault: Fault,
    pub line: u64,
    pub column: u64,
}

// What a line has given so far.
#[derive(Clone, Copy, PartialEq, Eq)]
enum Given {
    Nothing,
    Select(u8),
    Bits(u8, u8),
    Point,
}

// The word under way: its number, and the column where it starts.
#[derive(Clone, Copy)]
struct Word {
    value: u32,
    start: u64,
}

// Where the reading stands: the set-points so far, the line that is read, and the next byte's place.
#[derive(Clone, Copy)]
pub struct Reading {
    points: SetPoints,
    given: Given,
    word: Option<Word>,
    comment: bool,
    line: u64,
    column: u64,
}

// A number with a digit more; past 65,535 it stays there.
fn grown(value: u32, base: u32, digit: u32) -> u32 {
    value.saturating_mul(base).saturating_add(digit).min(65536)
}

// A word that is not too big for its bits.
fn fits(bits: u8, word: u16) -> bool {
    bits >= 16 || word >> bits == 0
}

impl Reading {
    pub fn new() -> Reading {
        Reading {
            points: SetPoints {
                count: 0,
                selects: [0; 16],
                bits: [0; 16],
                words: [0; 16],
            },
            given: Given::Nothing,
            word: None,
            comment: false,
            line: 1,
            column: 1,
        }
    }

    fn misread(&self, fault: Fault, column: u64) -> Misread {
        Misread {
            fault,
            line: self.line,
            column,
        }
    }

    fn moved(&mut self) {
        self.column = self.column.saturating_add(1);
    }

    // A set-point more, unless there are 16.
    fn added(&mut self, select: u8, bits: u8, word: u16) -> Result<(), Fault> {
        let at = self.points.count as usize;
        if at >= 16 {
            return Err(Fault::ManyPoints);
        }
        self.points.selects[at] = select;
        self.points.bits[at] = bits;
        self.points.words[at] = word;
        self.points.count += 1;
        self.given = Given::Point;
        Ok(())
    }

    // A word has ended: a select from 0 to 15, bits from 8 to 16, or a word that fits them.
    fn next(&mut self, value: u16) -> Result<(), Fault> {
        match self.given {
            Given::Nothing => {
                if value > 15 {
                    return Err(Fault::Select);
                }
                self.given = Given::Select(value as u8);
                Ok(())
            }
            Given::Select(select) => {
                if value < 8 || value > 16 {
                    return Err(Fault::Bits);
                }
                self.given = Given::Bits(select, value as u8);
                Ok(())
            }
            Given::Bits(select, bits) => {
                if !fits(bits, value) {
                    return Err(Fault::Word);
                }
                self.added(select, bits, value)
            }
            Given::Point => Err(Fault::ManyWords),
        }
    }

    // The word under way ends, if there is one.
    fn ended(&mut self) -> Result<(), Misread> {
        let Some(word) = self.word else {
            return Ok(());
        };
        self.word = None;
        let Ok(value) = u16::try_from(word.value) else {
            return Err(self.misread(Fault::LargeNumber, word.start));
        };
        match self.next(value) {
            Ok(()) => Ok(()),
            Err(fault) => Err(self.misread(fault, word.start)),
        }
    }

    // A line has ended: it has three words or none.
    fn line_ended(&mut self) -> Result<(), Misread> {
        self.ended()?;
        if matches!(self.given, Given::Select(_) | Given::Bits(_, _)) {
            return Err(self.misread(Fault::FewWords, self.column));
        }
        self.given = Given::Nothing;
        self.comment = false;
        self.line = self.line.saturating_add(1);
        self.column = 1;
        Ok(())
    }

    // A byte of a word.
    fn digit_read(&mut self, b: u8) -> Result<(), Misread> {
        let word = self.word.unwrap_or(Word {
            value: 0,
            start: self.column,
        });
        let base = if matches!(self.given, Given::Bits(_, _)) {
            16
        } else {
            10
        };
        let Some(digit) = char::from(b).to_digit(base) else {
            return Err(self.misread(Fault::NoNumber, word.start));
        };
        self.word = Some(Word {
            value: grown(word.value, base, digit),
            start: word.start,
        });
        self.moved();
        Ok(())
    }

    fn step(&mut self, b: u8) -> Result<(), Misread> {
        if b == b'\n' {
            return self.line_ended();
        }
        if !self.comment {
            match b {
                b'#' => {
                    self.ended()?;
                    self.comment = true;
                }
                b' ' | b'\t' | b',' | b'\r' => self.ended()?,
                _ => return self.digit_read(b),
            }
        }
        self.moved();
        Ok(())
    }

    // A part of the text more.
    pub fn taken(self, part: &[u8]) -> Result<Reading, Misread> {
        let mut now = self;
        for b in part {
            now.step(*b)?;
        }
        Ok(now)
    }

    // The end of the text ends its last line.
    pub fn finished(mut self) -> Result<SetPoints, Misread> {
        self.line_ended()?;
        Ok(self.points)
    }
}
