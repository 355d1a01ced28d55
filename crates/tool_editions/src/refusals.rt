// What a call is refused for, and the number that hosts see.
ghost use Rattle.std.specs.Prelude.{◌≡◌};
ghost use Rattle.tool_editions.specs.Refusals.{number, broken_by};

use crate::records::Unreadable;

// Settings that the module refuses; a record of an unknown kind, or one that the rules would have refused; one that an end cuts; no room; a
// number that is not above the last, or under which no edition stands.
#[derive(Clone, Copy)]
pub enum Refusal {
    Unmodelled,
    BadRecord,
    CutRecord,
    NoRoom,
    BadNumber,
}

impl From<Refusal> for u8 {
    ghost from_gives = { λ why n. n ≡ number why };

    fn from(why: Refusal) -> u8 {
        match why {
            Refusal::Unmodelled => 3,
            Refusal::BadRecord => 5,
            Refusal::CutRecord => 6,
            Refusal::NoRoom => 7,
            Refusal::BadNumber => 8,
        }
    }
}

// The refusal of what is no whole record.
impl From<Unreadable> for Refusal {
    ghost from_gives = { λ u why. why ≡ broken_by u };

    fn from(u: Unreadable) -> Refusal {
        match u {
            Unreadable::Unknown => Refusal::BadRecord,
            Unreadable::Cut => Refusal::CutRecord,
        }
    }
}
