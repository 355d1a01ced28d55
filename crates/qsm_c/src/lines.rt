// Lines gathered from a replayed trace: the state by value, and what a call tells in numbers.
ghost use Rattle.std.specs.Prelude.{◌≡◌, length};
ghost use Rattle.tool_lines.specs.Call.{started, called};
ghost use Rattle.qsm_c.specs.Lines.{in_numbers, Tells};

use tool_lines::Lines;
use tool_lines::line::Outcome;

// The state after a call, and what it tells: the end of the trace, a line, a drop, a stop, or a refusal.
#[repr(C)]
#[derive(Clone, Copy)]
pub struct LinesTold {
    pub state: Lines,
    pub number: u64,
    pub kind: u8,
    pub length: u8,
    pub cause: u8,
    pub refusal: u8,
}

const END: u8 = 0;

const LINE: u8 = 1;

const DROP: u8 = 2;

const STOP: u8 = 3;

const REFUSED: u8 = 4;

const NOTHING: u8 = 5;

fn in_numbers(state: Lines, o: Outcome) -> LinesTold
    ensures { result ≡ in_numbers state o }
{
    let nothing = LinesTold {
        state,
        number: 0,
        kind: NOTHING,
        length: 0,
        cause: 0,
        refusal: 0,
    };
    match o {
        Outcome::Nothing => nothing,
        Outcome::Handed(number, length) => LinesTold {
            number,
            kind: LINE,
            length,
            ..nothing
        },
        Outcome::Dropped(number, cause) => LinesTold {
            number,
            kind: DROP,
            cause,
            ..nothing
        },
        Outcome::Stopped(why) => LinesTold {
            kind: STOP,
            refusal: u8::from(why),
            ..nothing
        },
        Outcome::Ended => LinesTold {
            kind: END,
            ..nothing
        },
        Outcome::Refused(why) => LinesTold {
            kind: REFUSED,
            refusal: u8::from(why),
            ..nothing
        },
    }
}

// At the start of a trace.
// Ruled out: a module that is not fresh from reset; a first line with number 1.
#[unsafe(no_mangle)]
pub extern "C" fn qsm_lines_new() -> Lines
    ensures { result ≡ started }
{
    tool_lines::start()
}

// On to the next line, drop, stop or end.
// Ruled out: a line with a lost character; a drop that changes the buffer.
#[unsafe(no_mangle)]
pub extern "C" fn qsm_lines_next(
    state: Lines,
    trace: &[u8],
    period: u32,
    line: &mut [u8],
) -> LinesTold
    ensures { Tells (called period trace.now (length line.old) state) line.old result line.new }
{
    let t = tool_lines::go_on(state, trace, period, line);
    in_numbers(t.state, t.outcome)
}
