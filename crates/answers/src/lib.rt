// The bytes of an answer in a log: its kinds and their lengths, its fields in order, and where each stands.
#![tactic(auto)]

ghost use Rattle.std.specs.Prelude.{◌≡◌};
ghost use Rattle.answers.specs.Answer.{length_of, known_kind, field_count, bytes_of};
ghost use Rattle.answers.specs.Field.{field_at, field_number};

mod claims;

// An answer of kind 10 has no clock, one of kind 11 ends with it.
pub const PLAIN: u8 = 0x10;

pub const CLOCKED: u8 = 0x11;

// The bytes of an answer of each.
pub const PLAIN_LENGTH: usize = 10;

pub const CLOCKED_LENGTH: usize = 18;

// The fields of an answer, in order.
#[derive(Clone, Copy)]
pub enum Field {
    Kind,
    Refusal,
    Value,
    Levels,
    Mask,
    Level,
    Vector,
    Clock,
}

// Where each begins.
pub const KIND: usize = 0;

pub const REFUSAL: usize = 1;

pub const VALUE: usize = 2;

pub const LEVELS: usize = 6;

pub const MASK: usize = 7;

pub const LEVEL: usize = 8;

pub const VECTOR: usize = 9;

pub const CLOCK: usize = 10;

// The bytes of each, in order.
pub const SIZES: [usize; 8] = [1, 1, 4, 1, 1, 1, 1, 8];

// Ruled out: 10 alone; 11 alone.
pub fn known_kind(kind: u8) -> bool
    ensures { result ≡ known_kind kind }
{
    (kind == PLAIN) | (kind == CLOCKED)
}

// The bytes of an answer of a kind.
// Ruled out: ten for both; eighteen for both.
pub fn length_of(kind: u8) -> usize
    ensures { result ≡ length_of kind }
{
    if kind == CLOCKED {
        CLOCKED_LENGTH
    } else {
        PLAIN_LENGTH
    }
}

// How many fields it has.
// Ruled out: the clock counted as a field of kind 10; seven fields for both.
pub fn fields_of(kind: u8) -> usize
    ensures { result ≡ field_count kind }
{
    if kind == CLOCKED { 8 } else { 7 }
}

// The field that the byte at a place is of.
// Ruled out: a byte of the value taken for the levels; the fields after the vector left out.
pub fn field_at(i: usize) -> Field
    ensures { result ≡ field_at i }
{
    match i {
        0 => Field::Kind,
        1 => Field::Refusal,
        2..=5 => Field::Value,
        6 => Field::Levels,
        7 => Field::Mask,
        8 => Field::Level,
        9 => Field::Vector,
        _ => Field::Clock,
    }
}

// Ruled out: numbers from 0 on; one number for two fields.
impl From<Field> for u8 {
    ghost from_gives = { λ f number. number ≡ field_number f };

    fn from(f: Field) -> u8 {
        match f {
            Field::Kind => 1,
            Field::Refusal => 2,
            Field::Value => 4,
            Field::Levels => 8,
            Field::Mask => 16,
            Field::Level => 32,
            Field::Vector => 64,
            Field::Clock => 128,
        }
    }
}

// The answer of kind 11 of such fields.
// Ruled out: a little-endian value or clock; levels and mask exchanged; an answer of kind 10.
pub fn bytes_of(
    refusal: u8,
    value: u32,
    levels: u8,
    mask: u8,
    level: u8,
    vector: u8,
    clock: u64,
) -> [u8; 18]
    ensures { result ≡ bytes_of refusal value levels mask level vector clock }
{
    let value = value.to_be_bytes();
    let clock = clock.to_be_bytes();
    [
        CLOCKED, refusal, value[0], value[1], value[2], value[3], levels, mask, level, vector,
        clock[0], clock[1], clock[2], clock[3], clock[4], clock[5], clock[6], clock[7],
    ]
}
