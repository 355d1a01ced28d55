// A command line read: options anywhere before --, values behind the options that take one, and words. -h, --help and --version are answered, and what
// is not expected is said.
ghost use Rattle.std.specs.Prelude.{IfOk};
ghost use Rattle.shell.specs.Arguments.{Goes};

use crate::arguments::{Refusal, Seen};
use crate::message::say_of;
use crate::options::{Kind, kind_of};
use files::command::{Stopped, argument, count, print_help, print_version};
use files::message::{ERROR, say};
use files::system::System;

// A word that is longer than any path counts as an empty one.
fn kind_at<R: System>(rt: &R, i: usize, flags: &[&[u8]], valued: &[&[u8]]) -> Kind {
    let mut word = io::buffer();
    let n = argument(rt, i, &mut word);
    kind_of(
        &word[..n],
        &[b"-h", b"--help", b"--version", b"--"],
        flags,
        valued,
    )
}

fn see<R: System>(rt: &R, from: usize, flags: &[&[u8]], valued: &[&[u8]]) -> Seen {
    let mut seen = Seen::none();
    for i in from..count(rt) {
        seen = seen.taken(i, kind_at(rt, i, flags, valued));
    }
    seen
}

// A message on the argument at a place.
fn say_argument<R: System>(rt: &R, program: &[u8], text: &[u8], i: usize) {
    let mut word = io::buffer();
    let n = argument(rt, i, &mut word);
    say_of(program, text, &word[..n]);
}

fn say_no_value<R: System>(rt: &R, program: &[u8]) {
    if let Some(last) = count(rt).checked_sub(1) {
        say_argument(rt, program, b"no value for ", last);
    }
}

// The command from an argument on; from argument 0, which is no word of it, its help is asked for. It has options that stand alone and options that a value
// follows, up to 16 of each; so many words, at most 8; a usage and a help.
// Ruled out: a command that goes on without a word that it needs, with one that it won't look at, with an option that it doesn't know, or with one that
// waits for its value.
pub fn read_line<R: System>(
    rt: &R,
    from: usize,
    program: &[u8],
    flags: &[&[u8]],
    valued: &[&[u8]],
    least: usize,
    most: usize,
    usage: &[u8],
    help: &[u8],
) -> Result<Seen, Stopped>
    ensures { IfOk result (λ seen. Goes least most seen) }
{
    if from == 0 {
        return Err(print_help(rt, program, usage, help));
    }
    let seen = see(rt, from, flags, valued);
    match seen.judged(least, most) {
        Ok(()) => return Ok(seen),
        Err(Refusal::Help) => return Err(print_help(rt, program, usage, help)),
        Err(Refusal::Version) => return Err(print_version(rt, program)),
        Err(Refusal::Unknown(i)) => say_argument(rt, program, b"unknown option ", i),
        Err(Refusal::NoValue) => say_no_value(rt, program),
        Err(Refusal::TooFew) => say(program, b"too few arguments\n"),
        Err(Refusal::TooMany) => say(program, b"too many arguments\n"),
    }
    io::write_all(ERROR, usage);
    Err(Stopped::Wrong)
}
