// A framer that hears a line sample by sample, and the first word that it brings.
ghost use Rattle.std.specs.Prelude.{◌≤◌};

use sci::framer::Framer;

#[derive(Clone, Copy)]
pub(crate) struct Ear {
    framer: Framer,
    last1: bool,
    last2: bool,
    last3: bool,
    pub(crate) came: bool,
    pub(crate) word: u16,
    pub(crate) stop: bool,
}

pub(crate) fn bits(m: bool) -> u16
    ensures { result ≤ 9 }
{
    if m { 9 } else { 8 }
}

pub(crate) fn words(m: bool) -> u16 {
    if m { 512 } else { 256 }
}

// Searching after three ones.
pub(crate) fn listening() -> Ear {
    Ear {
        framer: Framer::searching(),
        last1: true,
        last2: true,
        last3: true,
        came: false,
        word: 0,
        stop: false,
    }
}

fn framed(f: Framer, three: bool, x: bool, m: bool, moving: bool) -> Framer {
    if moving {
        f.framed(three, x, m)
    } else {
        f.fixed(three, x, m)
    }
}

fn heard(e: Ear, x: bool, m: bool, moving: bool) -> Ear {
    let framer = e.framer;
    let ended = framer.ends() & !e.came;
    let frame = framer.frame(x);
    Ear {
        framer: framed(framer, e.last1 & e.last2 & e.last3, x, m, moving),
        last1: x,
        last2: e.last1,
        last3: e.last2,
        came: e.came | ended,
        word: if ended { frame.word } else { e.word },
        stop: (ended & frame.stop) | (!ended & e.stop),
    }
}

// n samples of one level.
pub(crate) fn samples(e: Ear, x: bool, n: u16, m: bool, moving: bool) -> Ear {
    let mut next = e;
    for _ in 0..n {
        next = heard(next, x, m, moving);
    }
    next
}
