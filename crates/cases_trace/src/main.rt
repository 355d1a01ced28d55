// Cases of document 01's module and trace, played through the code: standard input has them, and says how a line is read. For each
// its name is printed, each answer in hexadecimal, the refusal that stopped the trace or 0, the bytes read and written, and whether
// the output past the answers is as it was.
#![tactic(auto)]

mod parse;
mod show;

use parse::find;
use qsm::state::Module;
use show::{FILL, played, title};

// The module that plays a trace.
fn player(sign: u8, kept: Module) -> Module {
    if (sign == b'+') | (sign == b'-') {
        kept
    } else {
        Module::reset()
    }
}

// The one that is kept after it.
fn keeper(sign: u8, kept: Module, left: Module) -> Module {
    if sign == b'-' { kept } else { left }
}

fn named(sign: u8, name: &[u8], m: Module, trace: &[u8], out: &mut [u8]) -> Module {
    if sign == b'~' {
        let p = trace::play(m, trace, out);
        p.state
    } else {
        show::name(name);
        played(m, trace, out)
    }
}

// A case: its sign, its trace and room, its name.
fn case(sign: u8, kept: Module, text: &[u8], name: &[u8]) -> Module {
    let mut bytes = [0u8; 32];
    let mut room = [FILL; 80];
    let trace = parse::bytes(text, &mut bytes);
    let out = parse::first(&mut room, parse::room(text));
    let left = named(sign, name, player(sign, kept), trace, out);
    keeper(sign, kept, left)
}

fn is_case(sign: u8) -> bool {
    (sign == b'0') | (sign == b'+') | (sign == b'-') | (sign == b'~')
}

// One line of the input, and the module that is kept after it.
fn line(kept: Module, text: &[u8]) -> Module {
    if text.len() < 2 {
        return kept;
    }
    let sign = text[0];
    if sign == b'#' {
        title(&text[2..]);
    }
    if is_case(sign) {
        let end = find(text, 2, b';');
        let name = parse::past(0, end, text.len());
        return case(sign, kept, &text[2..end], &text[name..]);
    }
    kept
}

fn cases(text: &[u8]) {
    let mut kept = Module::reset();
    let mut at: usize = 0;
    while at < text.len() {
        let end = find(text, at, b'\n');
        kept = line(kept, &text[at..end]);
        at = parse::past(at, end, text.len());
    }
}

fn main() {
    let mut text = io::large_buffer();
    let n = io::read_full(0, &mut text);
    cases(&text[..n]);
}
