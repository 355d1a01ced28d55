// Cases of document 01's serial half, run through the code: standard input has them, and says how a line is read. A line's name is
// printed with what came out: SCDR and SCSR in hexadecimal with the names of the flags that are set, RWU, and TXD a bit at a time.
#![tactic(auto)]

mod act;
mod line;
mod show;

use sci::serial::Sci;

// Where in a line the next byte stands.
#[derive(Clone, Copy, PartialEq, Eq)]
enum Place {
    Start,
    Name,
    Acts,
    PassedOver,
}

// The serial half, and the act that waits for the rest of its number.
#[derive(Clone, Copy)]
struct Run {
    sci: Sci,
    place: Place,
    act: u8,
    number: u16,
}

fn begun(sci: Sci, place: Place, act: u8) -> Run {
    Run {
        sci,
        place,
        act,
        number: 0,
    }
}

// The act that waits is done.
fn done(r: Run) -> Sci {
    act::done(r.sci, r.act, r.number)
}

fn line_end(r: Run) -> Run {
    if r.place == Place::Acts {
        let s = done(r);
        show::text(b"\n");
        return begun(s, Place::Start, b' ');
    }
    begun(r.sci, Place::Start, b' ')
}

// The value of a hexadecimal digit, or 16.
fn digit(c: u8) -> u8 {
    match c {
        b'0'..=b'9' => c - 48,
        b'A'..=b'F' => c - 55,
        _ => 16,
    }
}

fn in_acts(mut r: Run, c: u8) -> Run {
    let d = digit(c);
    if d < 16 {
        r.number = r.number % 4096 * 16 + d as u16;
        return r;
    }
    begun(done(r), Place::Acts, c)
}

fn in_name(mut r: Run, c: u8) -> Run {
    if c == b'|' {
        show::text(b": ");
        r.place = Place::Acts;
        return r;
    }
    show::text(&[c]);
    r.place = Place::Name;
    r
}

// One byte of the input.
fn fed(mut r: Run, c: u8) -> Run {
    if c == b'\n' {
        return line_end(r);
    }
    let place = r.place;
    if place == Place::Acts {
        return in_acts(r, c);
    }
    if place == Place::PassedOver {
        return r;
    }
    if (place == Place::Start) & (c == b'/') {
        r.place = Place::PassedOver;
        return r;
    }
    in_name(r, c)
}

fn cases(text: &[u8]) {
    let mut r = begun(Sci::reset(), Place::Start, b' ');
    for c in text {
        r = fed(r, *c);
    }
}

fn main() {
    let mut text = io::large_buffer();
    let n = io::read_full(0, &mut text);
    cases(&text[..n]);
}
