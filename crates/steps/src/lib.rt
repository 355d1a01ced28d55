// What both halves of the module need: bytes of a register word and the write of it by its byte lanes, and one meaning of
// 'so many times' (`specs/Iterate`, which has no code of its own).
#![tactic(auto)]

ghost use Rattle.std.specs.Prelude.{◌≡◌, cond};
ghost use Rattle.steps.specs.Bits.{upper_byte, lower_byte, word, merge};

// Ruled out: the lower byte; the word undivided.
pub fn upper_byte(w: u16) -> u8
    ensures { result ≡ upper_byte w }
{
    w.to_be_bytes()[0]
}

// Ruled out: the upper byte; a low bit dropped.
pub fn lower_byte(w: u16) -> u8
    ensures { result ≡ lower_byte w }
{
    w.to_be_bytes()[1]
}

// Ruled out: little-endian order; the upper byte dropped.
pub fn word(h: u8, l: u8) -> u16
    ensures { result ≡ word h l }
{
    u16::from_be_bytes([h, l])
}

// Ruled out: the choice the other way round; always the first.
pub fn choose<T: Copy>(first: bool, a: T, b: T) -> T
    ensures { result ≡ cond first a b }
{
    if first { a } else { b }
}

// A register word after a write that touches its upper byte, its lower byte, or both.
// Ruled out: the bytes swapped; an untouched byte cleared.
pub fn merge(old: u16, new: u16, upper: bool, lower: bool) -> u16
    ensures { result ≡ merge old new upper lower }
{
    word(
        choose(upper, upper_byte(new), upper_byte(old)),
        choose(lower, lower_byte(new), lower_byte(old)),
    )
}
