// Lines of text on standard output.
use qsm::state::Module;
use trace::ANSWER_LENGTH;

// What stands in an output before a trace is played into it.
pub(crate) const FILL: u8 = 0xA5;

fn text(t: &[u8]) {
    io::write_all(1, t);
}

pub(crate) fn title(t: &[u8]) {
    text(t);
    text(b"\n");
}

fn decimal(name: &[u8], n: usize) {
    text(name);
    io::print_decimal(1, n as u64);
}

fn hex(n: u8) {
    io::print_hex(1, n as u64, 2);
}

// What stands before a byte of an answer.
fn field(place: usize) {
    match place {
        0 => text(b"kind "),
        1 => text(b", refusal "),
        2 => text(b", value "),
        6 => text(b", levels "),
        7 => text(b", mask "),
        8 => text(b", level "),
        9 => text(b", vector "),
        10 => text(b", clock "),
        _ => {}
    }
}

fn byte(at: usize, b: u8) {
    field(at % ANSWER_LENGTH);
    hex(b);
    if at % ANSWER_LENGTH == ANSWER_LENGTH - 1 {
        text(b"; ");
    }
}

fn answers(out: &[u8], written: usize) {
    for (at, b) in out.iter().take(written).enumerate() {
        byte(at, *b);
    }
}

// Each byte past the answers is as it was.
fn unchanged(out: &[u8], written: usize) -> bool {
    out.iter().skip(written).all(|b| *b == FILL)
}

fn rest(unchanged: bool) {
    if unchanged {
        text(b", rest unchanged\n");
    } else {
        text(b", rest changed\n");
    }
}

// The name of a case, which starts with a space.
pub(crate) fn name(t: &[u8]) {
    text(b" ");
    text(t);
    text(b": ");
}

fn report(out: &[u8], stop: usize, read: usize, written: usize) {
    answers(out, written);
    decimal(b"stop ", stop);
    decimal(b", read ", read);
    decimal(b", written ", written);
    rest(unchanged(out, written));
}

// Plays a trace into an output, and prints the answers, how it stopped, and the bytes read and written. The module that it left.
pub(crate) fn played(m: Module, trace: &[u8], out: &mut [u8]) -> Module {
    let p = trace::play(m, trace, out);
    let stop = p.stop;
    report(out, trace::stop_number(stop) as usize, p.read, p.written);
    p.state
}
