// Runs of the queue beyond the marked examples, held to what they write: a character for each clock where the lines are
// drawn, else the clocks counted and the words stored. MISO is wired to MOSI.
#![tactic(auto)]

use qspi::{Pins, Qspi};

fn say(text: &[u8]) {
    io::write_all(1, text);
}

fn number(text: &[u8], n: u32) {
    io::write_all(1, text);
    io::print_decimal(1, n as u64);
}

fn word(text: &[u8], w: u16) {
    io::write_all(1, text);
    io::print_hex(1, w as u64, 4);
}

// All seven pins assigned, MISO the only input, at MOSI's level.
fn wired(q: Qspi) -> Pins {
    Pins {
        levels: u8::from(q.mosi()),
        pqspar: 0x7B,
        ddrqs: 0x7E,
    }
}

// PCS0 an input too, and low.
fn faulty() -> Pins {
    Pins {
        levels: 0,
        pqspar: 0x7B,
        ddrqs: 0x76,
    }
}

fn next(q: Qspi) -> Qspi {
    q.clock(wired(q))
}

fn clocks(q: Qspi, n: u32) -> Qspi {
    let mut r = q;
    for _ in 0..n {
        r = next(r);
    }
    r
}

fn glyph(d: u8) -> u8 {
    if d % 16 < 10 {
        48 + d % 16
    } else {
        55 + d % 16
    }
}

fn digit(d: u8) {
    let c = [glyph(d)];
    io::write_all(1, &c);
}

// What is drawn of the queue's lines.
#[derive(Clone, Copy)]
enum Line {
    Sck,
    Mosi,
    Pcs,
}

// What a line shows, the PCS over PORTQS 78.
fn shown(q: Qspi, line: Line) -> u8 {
    match line {
        Line::Sck => u8::from(q.sck()),
        Line::Mosi => u8::from(q.mosi()),
        Line::Pcs => q.pcs(0x78),
    }
}

fn draw(q: Qspi, line: Line, n: u32) {
    let mut r = q;
    for _ in 0..n {
        r = next(r);
        digit(shown(r, line));
    }
    say(b"\n");
}

// The clock in which SPIF rises, or 40,000.
fn finish(q: Qspi) -> u32 {
    let mut r = q;
    for i in 0..40000 {
        if r.spsr.flags.spif {
            return i;
        }
        r = next(r);
    }
    40000
}

fn ended(before: Qspi, after: Qspi) {
    if before.entry.playing & !after.entry.playing {
        digit(after.spsr.cptqp);
    }
}

// CPTQP each time that an entry ends.
fn order(q: Qspi, n: u32) -> Qspi {
    let mut r = q;
    for _ in 0..n {
        let s = next(r);
        ended(r, s);
        r = s;
    }
    say(b"\n");
    r
}

// The transmit word and the command byte of entry i.
fn with_entry(q: Qspi, i: u8, w: u16, command: u8) -> Qspi {
    q.write_transmit(i, w, true, true)
        .write_command(i / 2, (command as u16) * 257, i % 2 == 0, i % 2 == 1)
}

fn with_entries(q: Qspi, w: u16, command: u8) -> Qspi {
    let mut r = q;
    for i in 0..16 {
        r = with_entry(r, i, w, command);
    }
    r
}

// SPCR1 last: it sets SPE.
fn set_up(q: Qspi, spcr0: u16, spcr2: u16, spcr1: u16) -> Qspi {
    q.write_spcr0(spcr0, true, true)
        .write_spcr2(spcr2, true, true)
        .write_spcr1(spcr1, true, true)
}

// One entry of 8 bits at SPBR 2, the word A5.
fn mode(text: &[u8], spcr0: u16) {
    let q = set_up(with_entries(Qspi::reset(), 0xA5, 0x0E), spcr0, 0, 0x8404);
    say(text);
    draw(q, Line::Sck, 34);
    draw(q, Line::Mosi, 34);
    word(b"stored ", clocks(q, 40).receive_word(0));
    say(b"\n");
}

// One entry with BITS and BITSE, the word A53C.
fn bits(text: &[u8], spcr0: u16, command: u8) {
    let q = set_up(
        with_entries(Qspi::reset(), 0xA53C, command),
        spcr0,
        0,
        0x8404,
    );
    number(text, finish(q));
    word(b" clocks, stored ", clocks(q, 100).receive_word(0));
    say(b"\n");
}

// Two entries: the clock of the second one's last edge.
fn timing(text: &[u8], spcr1: u16, command: u8) {
    let q = set_up(
        with_entries(Qspi::reset(), 0, command),
        0x8104,
        0x0100,
        spcr1,
    );
    number(text, finish(q));
    say(b"\n");
}

fn chain() {
    let one = with_entry(Qspi::reset(), 0, 0, 0x8E);
    let q = set_up(with_entry(one, 1, 0, 0x0D), 0x8002, 0x0100, 0x8404);
    say(b"CONT, then plain\n");
    draw(q, Line::Pcs, 90);
    let two = with_entry(Qspi::reset(), 0, 0, 0x0E);
    let r = set_up(with_entry(two, 1, 0, 0x8D), 0x8002, 0x0100, 0x8404);
    say(b"plain, then CONT\n");
    draw(r, Line::Pcs, 90);
}

fn wrap(text: &[u8], spcr2: u16) {
    say(text);
    let q = order(
        set_up(with_entries(Qspi::reset(), 0, 0), 0x8102, spcr2, 0x8404),
        500,
    );
    word(b"SPSR ", q.spcr3_spsr());
    say(b"\n");
}

fn rewritten() {
    say(b"NEWQP 1 rewritten with 1 in the third entry\n");
    let q = clocks(
        set_up(with_entries(Qspi::reset(), 0, 0), 0x8102, 0x0501, 0x8404),
        110,
    );
    order(q.write_spcr2(0x0501, false, true), 500);
}

fn halted() {
    say(b"HALT in the first entry, released later\n");
    let q = clocks(
        set_up(with_entries(Qspi::reset(), 0x55, 0), 0x8102, 0x0100, 0x8404),
        10,
    );
    let h = q.write_spcr3_spsr(0x0100, true, false);
    word(
        b"SPSR before the delay's last clock ",
        clocks(h, 38).spcr3_spsr(),
    );
    word(b", after it ", clocks(h, 39).spcr3_spsr());
    let w = clocks(h, 1000);
    word(b", 1000 clocks on ", w.spcr3_spsr());
    let r = w.write_spcr3_spsr(0x0000, true, false);
    number(b"\nreleased: SPIF at clock ", finish(r));
    say(b"\n");
}

fn fault() {
    say(b"mode fault in mid entry\n");
    let q = clocks(
        set_up(
            with_entries(Qspi::reset(), 0x55, 0x0E),
            0x8102,
            0x0100,
            0x8404,
        ),
        20,
    );
    let f = q.clock(faulty());
    word(b"SPCR1 ", f.spcr1());
    word(b", SPSR ", clocks(f, 500).spcr3_spsr());
    word(b", stored ", clocks(f, 500).receive_word(0));
    say(b"\n");
}

fn cleared() {
    say(b"SPE cleared in mid entry, then set again\n");
    let q = clocks(
        set_up(
            with_entries(Qspi::reset(), 0x55, 0x0E),
            0x8102,
            0x0100,
            0x8404,
        ),
        20,
    );
    let c = clocks(q.write_spcr1(0x0404, true, true), 500);
    word(b"SPSR ", c.spcr3_spsr());
    word(b", stored ", c.receive_word(0));
    let s = c.write_spcr1(0x8404, true, true);
    number(b", SPIF at clock ", finish(s));
    word(b", stored ", clocks(s, 200).receive_word(1));
    say(b"\n");
}

fn slow(text: &[u8], spcr0: u16) {
    let q = clocks(
        set_up(with_entries(Qspi::reset(), 0xFF, 0), spcr0, 0, 0x8404),
        5000,
    );
    word(text, q.spcr1());
    word(b", SPSR ", q.spcr3_spsr());
    say(b", SCK and MOSI ");
    digit(shown(q, Line::Sck));
    digit(shown(q, Line::Mosi));
    say(b"\n");
}

fn main() {
    mode(b"CPOL 0, CPHA 0: SCK, MOSI\n", 0x8002);
    mode(b"CPOL 0, CPHA 1: SCK, MOSI\n", 0x8102);
    mode(b"CPOL 1, CPHA 0: SCK, MOSI\n", 0x8202);
    mode(b"CPOL 1, CPHA 1: SCK, MOSI\n", 0x8302);
    bits(b"8 bits without BITSE: ", 0xA402, 0x00);
    bits(b"8 bits: ", 0xA002, 0x40);
    bits(b"9 bits: ", 0xA402, 0x40);
    bits(b"16 bits: ", 0x8002, 0x40);
    chain();
    timing(b"plain: ", 0x8500, 0x00);
    timing(b"DSCK, DSCKL 0: ", 0x8000, 0x10);
    timing(b"DSCK, DSCKL 1: ", 0x8100, 0x10);
    timing(b"DSCK, DSCKL 5: ", 0x8500, 0x10);
    timing(b"DT, DTL 0: ", 0x8500, 0x20);
    timing(b"DT, DTL 3: ", 0x8503, 0x20);
    timing(b"DT, DSCK, both 0: ", 0x8000, 0x30);
    wrap(b"WREN, from 2 to 3\n", 0x4302);
    wrap(b"WREN and WRTO, from 2 to 3\n", 0x6302);
    wrap(b"no WREN, from 14 to 1\n", 0x010E);
    rewritten();
    halted();
    fault();
    cleared();
    slow(b"SPBR 0: SPCR1 ", 0x8100);
    slow(b"SPBR 1: SPCR1 ", 0x8101);
    slow(b"SPBR 2: SPCR1 ", 0x8102);
}
