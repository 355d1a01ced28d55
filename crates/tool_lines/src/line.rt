// Lines from delivered words.
ghost use Rattle.std.specs.Prelude.{◌≡◌, cond, min};
ghost use Rattle.tool_lines.specs.Gather.{most, number_of, or_0, damage, caused, typed, forgotten, following, goes_on, ended, put, touched, shown};
ghost use Rattle.tool_lines.specs.declared.line.Outcome.TheVariants as told;

use crate::stop::{Refusal, Stop};

// The line being gathered: its number, from 0 over all that ended, the first cause to drop it, or 0, and its characters: the first `count`.
#[repr(C)]
#[derive(Clone, Copy)]
pub struct Line {
    pub number: u64,
    pub cause: u8,
    pub count: u8,
    pub characters: [u8; 128],
}

// What there is to tell: nothing; a line's number and how many characters it has; a dropped line's number and cause; why the replay
// stopped; the end of the trace; why the call is refused.
#[derive(Clone, Copy)]
pub enum Outcome {
    Nothing,
    Handed(u64, u8),
    Dropped(u64, u8),
    Stopped(Stop),
    Ended,
    Refused(Refusal),
}

// The causes, in their order on one word.
#[derive(Clone, Copy, PartialEq, Eq)]
pub enum Cause {
    Framing = 1,
    Parity = 2,
    Noise = 3,
    Length = 4,
    Overrun = 5,
}

// As a line has it.
// Ruled out: the number of another; 0, which is no cause.
impl From<Cause> for u8 {
    ghost from_gives = { λ c n. n ≡ number_of c };

    fn from(cause: Cause) -> u8 {
        cause as u8
    }
}

#[derive(Clone, Copy)]
pub struct Gathered {
    pub line: Line,
    pub outcome: Outcome,
}

// The most characters before a line's end.
pub const MOST: u8 = 128;

pub(crate) const NEWLINE: u8 = 0x0A;

// FE, PF, NF of a status.
fn damage(status: u32) -> Option<Cause>
    ensures { or_0 result ≡ damage status }
{
    if status / 2 % 2 == 1 {
        return Some(Cause::Framing);
    }
    if status % 2 == 1 {
        return Some(Cause::Parity);
    }
    if status / 4 % 2 == 1 {
        return Some(Cause::Noise);
    }
    None
}

impl Line {
    // Ruled out: a later cause over the first one; a cause left out.
    pub fn caused(mut self, why: u8) -> Line
        ensures { result ≡ caused self why }
    {
        if self.cause == 0 {
            self.cause = why;
        }
        self
    }

    fn damaged(self, status: u32) -> Line
        ensures { result ≡ caused self (damage status) }
    {
        match damage(status) {
            Some(why) => self.caused(u8::from(why)),
            None => self,
        }
    }

    fn caused_if(self, some: bool, why: Cause) -> Line
        ensures { result ≡ cond some (caused self (number_of why)) self }
    {
        if some {
            self.caused(u8::from(why))
        } else {
            self
        }
    }

    fn typed(mut self, c: u8) -> Line
        ensures { result ≡ typed self c }
    {
        let at = self.count;
        if at < MOST {
            self.characters[at as usize] = c;
            self.count = at + 1;
            return self;
        }
        self.caused(u8::from(Cause::Length))
    }

    // Ruled out: a number that a reset skips; the touch of an overrun kept.
    pub fn forgotten(mut self) -> Line
        ensures { result ≡ forgotten self }
    {
        self.cause = 0;
        self.count = 0;
        self
    }

    fn following(mut self) -> Line
        ensures { result ≡ following self }
    {
        self.number = self.number.saturating_add(1);
        self.cause = 0;
        self.count = 0;
        self
    }

    fn goes_on(self) -> Gathered
        ensures { result ≡ goes_on self }
    {
        Gathered {
            line: self,
            outcome: Outcome::Nothing,
        }
    }

    fn told(self, good: bool) -> Outcome
        ensures { result ≡ cond good (told.Handed self.number (min self.count most)) (told.Dropped self.number self.cause) }
    {
        if good {
            Outcome::Handed(self.number, self.count.min(MOST))
        } else {
            Outcome::Dropped(self.number, self.cause)
        }
    }

    fn ended(self) -> Gathered
        ensures { result ≡ ended self }
    {
        let outcome = self.told(self.cause == 0);
        Gathered {
            line: self.following(),
            outcome,
        }
    }

    fn put_or_ended(self, newline: bool, c: u8) -> Gathered
        ensures { result ≡ cond newline (ended self) (goes_on (typed self c)) }
    {
        if newline {
            self.ended()
        } else {
            self.typed(c).goes_on()
        }
    }

    fn put(self, status: u32, c: u8) -> Gathered
        ensures { result ≡ put self status c }
    {
        self.damaged(status).put_or_ended(c == NEWLINE, c)
    }

    fn put_if(self, delivered: bool, status: u32, c: u8) -> Gathered
        ensures { result ≡ cond delivered (put self status c) (goes_on self) }
    {
        if delivered {
            self.put(status, c)
        } else {
            self.goes_on()
        }
    }

    // What a poll makes of a line: its word is put in first, then OR touches the line that is being gathered.
    // Ruled out: a touched line handed over; OR before the word that it came with.
    #[tactic(auto, unfolding(crate::specs::Gather::shown))]
    pub fn shown(self, status: u32, word: u32) -> Gathered
        ensures { result ≡ shown self status word }
    {
        let g = self.put_if(status / 64 % 2 == 1, status, (word % 128) as u8);
        g.touched(status / 8 % 2 == 1)
    }
}

impl Gathered {
    fn touched(self, over: bool) -> Gathered
        ensures { result ≡ touched over self }
    {
        let line = self.line;
        let outcome = self.outcome;
        Gathered {
            line: line.caused_if(over, Cause::Overrun),
            outcome,
        }
    }
}
