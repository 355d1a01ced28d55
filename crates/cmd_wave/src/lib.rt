// The command `wave`: draws a trace as a VCD file, what its pins, inputs and request do; from a file or from standard input, of any length.
#![tactic(auto)]

ghost use Rattle.std.specs.Prelude.{◌≡◌};
ghost use Rattle.cmd_wave.specs.Rate.{rate};

use console::command::Command;
use console::message::say_line;
use console::output::{Out, flush, put, put_line};
use console::status::Status;
use ending::{status, stop_line};
use files::command::Command as Given;
use files::message::{fail, say};
use files::origin::Origin;
use files::system::{Sink, System};
use tool_wave::{Step, Stop};

mod ending;
mod piece;
mod stream;

// The names of what is drawn, before the first change.
fn put_header(to: &Sink, out: Out, buf: &mut [u8]) -> Out {
    put(
        to,
        out,
        buf,
        b"\
$comment a QSM, drawn from a trace $end
$timescale 1 ns $end
$scope module qsm $end
$var wire 1 I RXD $end
$var wire 1 h TXD $end
$var wire 1 a MISO $end
$var wire 1 b MOSI $end
$var wire 1 c SCK $end
$var wire 1 d PCS0 $end
$var wire 1 e PCS1 $end
$var wire 1 f PCS2 $end
$var wire 1 g PCS3 $end
$var wire 1 A in_MISO $end
$var wire 1 B in_MOSI $end
$var wire 1 C in_SCK $end
$var wire 1 D in_PCS0 $end
$var wire 1 E in_PCS1 $end
$var wire 1 F in_PCS2 $end
$var wire 1 G in_PCS3 $end
$var wire 1 H in_TXD $end
$var wire 1 k level [2] $end
$var wire 1 j level [1] $end
$var wire 1 i level [0] $end
$var wire 1 s vector [7] $end
$var wire 1 r vector [6] $end
$var wire 1 q vector [5] $end
$var wire 1 p vector [4] $end
$var wire 1 o vector [3] $end
$var wire 1 n vector [2] $end
$var wire 1 m vector [1] $end
$var wire 1 l vector [0] $end
$var event 1 1 refusal_1 $end
$var event 1 2 refusal_2 $end
$var event 1 3 refusal_3 $end
$var event 1 4 refusal_4 $end
$upscope $end
$enddefinitions $end
",
    )
}

// What is said of the end, at a place of the trace in bytes.
fn say_end(told: Result<Option<Step>, Stop>, place: u64) {
    match told {
        Ok(_) => say(b"wave", b"trace too long\n"),
        Err(Stop::End) => {}
        Err(why) => say_line(b"wave", stop_line(why, place)),
    }
}

// The time of the end, to which all stays as it is, where the trace was read up to it.
fn put_end(unread: bool, hz: u32, clock: u64, to: &Sink, out: Out, lines: &mut [u8]) -> Out {
    if unread {
        return out;
    }
    put_line(to, out, lines, tool_wave::vcd::time_text(hz, clock))
}

// Writes what waits; whether it could not be written, which is said.
fn write_rest(to: &Sink, out: Out, lines: &[u8]) -> bool {
    let end = flush(to, out, lines);
    if end.failed {
        fail(b"wave", b"standard output", to.error());
    }
    end.failed
}

fn draw<R: System>(rt: &R, hz: u32, from: &Origin, name: &[u8]) -> Status {
    let output = Sink::output(rt);
    let mut lines = io::large_buffer();
    let out = put_header(&output, Out::standard(&output), &mut lines);
    let e = stream::draw_all(rt, hz, from, &output, out, &mut lines);
    if let Some(why) = e.unread {
        fail(b"wave", name, why);
    }
    let timed = put_end(e.unread.is_some(), hz, e.clock, &output, e.out, &mut lines);
    let unwritten = write_rest(&output, timed, &lines);
    if e.unread.is_some() | unwritten {
        return Status::Failed;
    }
    let told = e.told;
    say_end(told, e.place);
    status(told)
}

// The trace that a word of the command names.
fn open<R: System>(rt: &R, from: usize, hz: u32, word: usize) -> Status {
    let mut name = io::buffer();
    let Some(input) = files::input::open_from(rt, from, b"wave", word, &mut name) else {
        return Status::Failed;
    };
    draw(rt, hz, &input.from, &name[..input.name])
}

// A clock in Hz, from 1 on; none where a number is none.
fn rate(n: Option<u64>) -> Option<u32>
    ensures { result ≡ rate n }
{
    let hz = u32::try_from(n?).ok()?;
    if hz == 0 { None } else { Some(hz) }
}

// The clock that the first word names.
fn first_word<R: System>(rt: &R, from: usize) -> Option<u32> {
    let mut word = io::buffer();
    let n = files::command::named_word(rt, from, 0, &mut word);
    rate(text::number::parse_number(&word[..n]))
}

fn start<R: System>(rt: &R, from: usize, c: Given) -> Status {
    if c.option {
        let Some(hz) = first_word(rt, from) else {
            say(b"wave", b"the clock is not 1 to 4294967295 Hz\n");
            return Status::Failed;
        };
        return open(rt, from, hz, 1);
    }
    if c.words > 1 {
        say(b"wave", b"too many arguments\n");
        return Status::Failed;
    }
    open(rt, from, 16777216, 0)
}

// Its name, what may stand on its line, what it says of itself and what it does.
struct WaveCommand;

impl Command for WaveCommand {
    const NAME: &'static [u8] = b"wave";

    const FIRST: &'static [u8] = b"--clock";

    const LEAST: usize = 0;

    const MOST: usize = 2;

    const USAGE: &'static [u8] = b"usage: wave [TRACE]\n       wave --clock HZ [TRACE]\n";

    const HELP: &'static [u8] = b"\
Plays a trace on a module fresh from reset, and writes what its lines do as a VCD file, which GTKWave, PulseView and sigrok read. Without
TRACE, or with -, it reads standard input.

  wave trace.bin > trace.vcd
  sigrok-cli -i trace.vcd -I vcd:downsample=10 -P uart:rx=TXD:baudrate=9600

TXD, MISO, MOSI, SCK, PCS0 to PCS3 stand as they are driven, or z; RXD and in_MISO to in_TXD as the holds give them; then the request's
level and vector, and an event for each access that is refused, by the refusal's number. A change stands at its own clock: clock n since
the start of the trace at n x 10^9 / HZ ns, rounded down. HZ is 16777216 without --clock; a reset does not turn time back.

A stop is said on standard error, with its place in bytes; the file up to there stands:
  5   unknown record kind
  6   record cut by the end of the trace
  10  the clocks since reset or since the start would pass 2^64 - 1

Exit status: 0 drawn to the end, 1 the trace stopped, 2 could not be done.
";

    ghost LEAST = { 0 };

    ghost MOST = { 2 };

    fn answer<R: System>(rt: &R, from: usize, c: Given) -> Status {
        start(rt, from, c)
    }
}

// The command, whose words begin at an argument.
pub fn run<R: System>(rt: &R, from: usize) -> Status {
    console::command::run::<WaveCommand, R>(rt, from)
}
