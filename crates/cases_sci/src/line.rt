// What comes over the RXD line, a sample at a time.
use sci::serial::Sci;

// n samples of one level.
pub(crate) fn samples(s: Sci, x: bool, n: u16) -> Sci {
    let mut next = s;
    for _ in 0..n {
        next = next.sample(x);
    }
    next
}

// n clocks of one level.
pub(crate) fn clocks(s: Sci, x: bool, n: u16) -> Sci {
    let mut next = s;
    for _ in 0..n {
        next = next.clock(x);
    }
    next
}

pub(crate) fn bit(s: Sci, x: bool) -> Sci {
    samples(s, x, 16)
}

// The n low bits of a word, low bit first.
fn bits(s: Sci, word: u16, n: u16) -> Sci {
    let mut next = s;
    let mut rest = word;
    for _ in 0..n {
        next = bit(next, rest % 2 == 1);
        rest = rest / 2;
    }
    next
}

// A clean frame of n data bits: start bit, data, stop bit.
pub(crate) fn frame(s: Sci, word: u16, n: u16) -> Sci {
    let begun = bit(s, false);
    let heard = bits(begun, word, n);
    bit(heard, true)
}
