// Lines of text on standard output.
use crate::line;
use sci::flags::Flags;
use sci::serial::Sci;
use sci::status::Status;

pub(crate) fn text(t: &[u8]) {
    io::write_all(1, t);
}

fn name_if(set: bool, name: &[u8]) {
    if set {
        text(name);
    }
}

// The names of the flags that are set, highest bit first.
fn flags(s: Status) {
    name_if(s.has(Flags::TDRE), b" TDRE");
    name_if(s.has(Flags::TC), b" TC");
    name_if(s.has(Flags::RDRF), b" RDRF");
    name_if(s.has(Flags::RAF), b" RAF");
    name_if(s.has(Flags::IDLE), b" IDLE");
    name_if(s.has(Flags::OR), b" OR");
    name_if(s.has(Flags::NF), b" NF");
    name_if(s.has(Flags::FE), b" FE");
    name_if(s.has(Flags::PF), b" PF");
}

pub(crate) fn scsr(s: Sci) {
    text(b"SCSR ");
    io::print_hex(1, s.scsr() as u64, 3);
    flags(s.status);
}

pub(crate) fn received(s: Sci) {
    text(b"SCDR ");
    io::print_hex(1, s.scdr() as u64, 3);
    text(b", ");
    scsr(s);
}

pub(crate) fn asleep(s: Sci) {
    text(b"RWU ");
    io::print_decimal(1, (s.sccr1() / 2 % 2) as u64);
    text(b", ");
    received(s);
}

pub(crate) fn driven(s: Sci) {
    text(b"TXD driven ");
    io::print_decimal(1, s.txd_driven() as u64);
}

// How many of the next 16 samples leave TXD at one.
fn ones(s: Sci) -> u8 {
    let mut next = s;
    let mut n: u8 = 0;
    for _ in 0..16 {
        next = next.sample(true);
        n = n.saturating_add(u8::from(next.txd()));
    }
    n
}

// TXD through the next 16 samples: 0 or 1, and x where it changes.
fn level(s: Sci) {
    match ones(s) {
        0 => text(b"0"),
        16 => text(b"1"),
        _ => text(b"x"),
    }
}

// The next n bits; the state after them.
fn bits(s: Sci, n: u16) -> Sci {
    let mut next = s;
    for _ in 0..n {
        level(next);
        next = line::bit(next, true);
    }
    next
}

pub(crate) fn txd(s: Sci, n: u16) -> Sci {
    text(b"TXD ");
    bits(s, n)
}
