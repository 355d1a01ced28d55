// What an access touches: byte lanes of one word, or both lanes of two words in address order.
ghost use Rattle.std.specs.Prelude.{◌≡◌};
ghost use Rattle.qsm.specs.model.Lanes.{halves, upper_lane, lower_lane, in_map, is_restricted, touches, lane, lined};

use crate::map::{decode, mapped, restricted};

// Words of an access: a long has two halves.
// Ruled out: a word in two halves; a long of one.
pub fn halves(width: u8) -> u8
    ensures { result ≡ halves width }
{
    if width == 4 { 2 } else { 1 }
}

// Whether the upper byte of a word is touched.
// Ruled out: a byte at an odd offset; a word's lower byte alone.
pub fn upper_lane(width: u8, offset: u16) -> bool
    ensures { result ≡ upper_lane width offset }
{
    (width != 1) | (offset % 2 == 0)
}

// Whether the lower byte of a word is touched.
// Ruled out: a byte at an even offset; a word's upper byte alone.
pub fn lower_lane(width: u8, offset: u16) -> bool
    ensures { result ≡ lower_lane width offset }
{
    (width != 1) | (offset % 2 == 1)
}

// Every byte touched is in the map.
// Ruled out: the first half alone asked; the word after a word asked.
pub fn in_map(width: u8, offset: u16) -> bool
    ensures { result ≡ in_map width offset }
{
    let at = offset as u32;
    mapped(decode(at)) & ((width != 4) | mapped(decode(at + 2)))
}

// A byte of QSMCR, QILR or QIVR is touched.
// Ruled out: the first half alone asked; every access restricted.
pub fn is_restricted(width: u8, offset: u16) -> bool
    ensures { result ≡ is_restricted width offset }
{
    let at = offset as u32;
    restricted(decode(at)) | ((width == 4) & restricted(decode(at + 2)))
}

// Whether an access touches one of n bytes from a place on.
// Ruled out: the byte before them; the byte after the access.
pub fn touches(first: u8, n: u8, width: u8, offset: u16) -> bool
    ensures { result ≡ touches first n width offset }
{
    let at = offset as u32;
    (at < (first as u32) + (n as u32)) & ((first as u32) < at + (width as u32))
}

// What a read of this width gives of the words that it read: a byte of its lane, or all of them.
// Ruled out: the other lane; a long's second word alone.
pub fn lane(width: u8, upper: bool, words: u32) -> u32
    ensures { result ≡ lane width upper words }
{
    if width == 1 {
        if upper {
            words / 256 % 256
        } else {
            words % 256
        }
    } else {
        words
    }
}

// A value to write, its first word uppermost. A byte stands on both lanes.
// Ruled out: a long's low word first; a byte on the lower lane alone.
pub fn lined(width: u8, value: u32) -> u32
    ensures { result ≡ lined width value }
{
    match width {
        1 => value % 256 * 0x01010000,
        2 => value % 0x10000 * 0x10000,
        _ => value,
    }
}
