// Why a replay goes no further, and why a call is refused.
ghost use Rattle.std.specs.Prelude.{◌≡◌};
ghost use Rattle.tool_lines.specs.Stop.{number_of, refusal_of};

// An access that polling is to make; a record of an unknown kind; one that the end of the trace cuts; a hold that would pass 2^64 - 1 clocks.
#[derive(Clone, Copy, PartialEq, Eq)]
pub enum Stop {
    Access = 3,
    UnknownKind = 5,
    CutRecord = 6,
    ClockLimit = 10,
}

// Ruled out: the number of another; 0, which is no stop.
impl From<Stop> for u8 {
    ghost from_gives = { λ s n. n ≡ number_of s };

    fn from(stop: Stop) -> u8 {
        stop as u8
    }
}

// The period is not 1 to 65,535; the line buffer is too small.
#[derive(Clone, Copy, PartialEq, Eq)]
pub enum Refusal {
    Period = 1,
    Room = 7,
}

// Ruled out: the number of another; 0, which is no refusal.
impl From<Refusal> for u8 {
    ghost from_gives = { λ r n. n ≡ refusal_of r };

    fn from(refusal: Refusal) -> u8 {
        refusal as u8
    }
}
