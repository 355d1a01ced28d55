// What a letter of a case does to the serial half.
use crate::{line, show};
use sci::serial::Sci;

// A reset, and writes.
fn written(s: Sci, act: u8, v: u16) -> Sci {
    match act {
        b'r' => Sci::reset(),
        b'b' => s.write_sccr0(v, true, true),
        b'c' => s.write_sccr1(v, true, true),
        b'w' => s.data_write(v, true, true),
        b'u' => s.data_write(v, true, false),
        b'v' => s.data_write(v, false, true),
        _ => s,
    }
}

fn read(s: Sci, act: u8) -> Sci {
    match act {
        b's' => s.status_read(),
        b'd' => s.data_read(),
        _ => s,
    }
}

// What comes over the line.
fn heard(s: Sci, act: u8, n: u16) -> Sci {
    match act {
        b'h' => line::samples(s, true, n),
        b'l' => line::samples(s, false, n),
        b'i' => line::clocks(s, true, n),
        b'j' => line::clocks(s, false, n),
        b'f' => line::frame(s, n, 8),
        b'g' => line::frame(s, n, 9),
        _ => s,
    }
}

fn printed(s: Sci, act: u8) {
    match act {
        b'q' => show::scsr(s),
        b'p' => show::received(s),
        b'a' => show::asleep(s),
        b'x' => show::driven(s),
        _ => {}
    }
}

fn sent(s: Sci, act: u8, n: u16) -> Sci {
    match act {
        b't' => show::txd(s, n),
        _ => s,
    }
}

pub(crate) fn done(s: Sci, act: u8, n: u16) -> Sci {
    let next = heard(read(written(s, act, n), act), act, n);
    printed(next, act);
    sent(next, act, n)
}
