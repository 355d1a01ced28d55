// Senders whose bits last 14 to 18 samples instead of 16: how many of all words of 8 and of 9 bits arrive right, with sampling points that stay
// and with points that move; and the same of the words whose falls, from the start bit's on, and the stop bit stand few bits apart.
#![tactic(auto)]

mod ear;

use ear::Ear;

// The n low bits of a word, low bit first, at so many samples each; then a stop bit and ones enough.
fn sent(word: u16, m: bool, length: u16, moving: bool) -> Ear {
    let mut e = ear::samples(ear::listening(), false, length, m, moving);
    let n = ear::bits(m);
    let mut rest = word;
    for _ in 0..n {
        e = ear::samples(e, rest % 2 == 1, length, m, moving);
        rest = rest / 2;
    }
    ear::samples(e, true, 64, m, moving)
}

fn arrives(word: u16, m: bool, length: u16, moving: bool) -> bool {
    let e = sent(word, m, length, moving);
    e.came & e.stop & (e.word == word)
}

// The largest number of bits from a fall to the next, the start bit's counted, or from the last to the stop bit.
fn apart(word: u16, m: bool) -> u16 {
    let n = ear::bits(m);
    let mut rest = word;
    let mut before = false;
    let mut last: u16 = 0;
    let mut most: u16 = 0;
    for i in 1..=n {
        let one = rest % 2 == 1;
        if before & !one {
            most = most.max(i.saturating_sub(last));
            last = i;
        }
        before = one;
        rest = rest / 2;
    }
    most.max((n + 1).saturating_sub(last))
}

fn text(t: &[u8]) {
    io::write_all(1, t);
}

fn number(n: u64) {
    io::print_decimal(1, n);
}

// Words that arrive with points that stay and with points that move; words whose falls are near to each other, and how many of them arrive.
#[derive(Clone, Copy)]
struct Counts {
    stay: u64,
    moving: u64,
    near: u64,
    near_right: u64,
}

// One word more.
fn with_word(c: Counts, word: u16, m: bool, length: u16, most: u16) -> Counts {
    let right = arrives(word, m, length, true);
    let near = apart(word, m) <= most;
    Counts {
        stay: c
            .stay
            .saturating_add(u64::from(arrives(word, m, length, false))),
        moving: c.moving.saturating_add(u64::from(right)),
        near: c.near.saturating_add(u64::from(near)),
        near_right: c.near_right.saturating_add(u64::from(near & right)),
    }
}

// All words of a width, from a sender with this length of a bit.
fn counted(m: bool, length: u16, most: u16) -> Counts {
    let all = ear::words(m);
    let mut c = Counts {
        stay: 0,
        moving: 0,
        near: 0,
        near_right: 0,
    };
    for w in 0..all {
        c = with_word(c, w, m, length, most);
    }
    c
}

fn row(m: bool, length: u16, most: u16) {
    let c = counted(m, length, most);
    number(ear::bits(m) as u64);
    text(b" data bits, ");
    number(length as u64);
    text(b" samples a bit: ");
    number(c.stay);
    text(b" words arrive with points that stay, ");
    number(c.moving);
    text(b" with points that move; of ");
    number(c.near);
    text(b" with falls at most ");
    number(most as u64);
    text(b" bits apart, ");
    number(c.near_right);
    text(b"\n");
}

fn rows(m: bool) {
    row(m, 14, 3);
    row(m, 15, 6);
    row(m, 16, 10);
    row(m, 17, 6);
    row(m, 18, 3);
}

fn main() {
    rows(false);
    rows(true);
}
