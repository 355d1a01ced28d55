// A program's command: options, in any place, and words. --help and --version are answered, and what is not expected is said.
ghost use Rattle.std.specs.Prelude.{IfOk};
ghost use Rattle.io.specs.Counts.{IsPrefixLen};
ghost use Rattle.files.specs.Words.{Expected};

use crate::message::{ERROR, fail, say, say_of};
use crate::system::{Sink, System};
use crate::version::write_version;
use crate::words::{Word, is_option, kind};
use std::env::FillError;

// What a command gives: whether its option is given and the second one, and how many words there are beside options.
#[derive(Clone, Copy)]
pub struct Command {
    pub option: bool,
    pub second: bool,
    pub words: usize,
}

// Why a command does not go on: what it asked for, as its help, was answered; or something was wrong, which is said.
#[derive(Clone, Copy, PartialEq, Eq)]
pub enum Stopped {
    Answered,
    Wrong,
}

// The words of a command: whether --help, --version and the program's options stand among them, the place of an option that is not known, and how many
// are no options.
#[derive(Clone, Copy)]
struct Seen {
    help: bool,
    version: bool,
    option: bool,
    second: bool,
    unknown: Option<usize>,
    words: usize,
}

// How many arguments the program was started with, its own name among them.
pub fn count<R: System>(rt: &R) -> usize {
    let mut none = [0u8; 1];
    for i in 0..usize::MAX {
        if let Err(FillError::NotPresent) = rt.arg(i, &mut none) {
            return i;
        }
    }
    usize::MAX
}

// Argument i at the start of a buffer, and its length; 0 where it is not there or too long.
// Ruled out: a length beyond the buffer.
pub fn argument<R: System>(rt: &R, i: usize, buf: &mut [u8]) -> usize
    ensures { IsPrefixLen result buf.new }
{
    rt.arg(i, buf).unwrap_or(0)
}

// A word that is longer than any path counts as an empty one.
fn kind_at<R: System>(rt: &R, i: usize, option: &[u8], second: &[u8]) -> Word {
    let mut word = io::buffer();
    let n = argument(rt, i, &mut word);
    kind(&word[..n], b"--help", b"--version", option, second)
}

fn see<R: System>(rt: &R, from: usize, option: &[u8], second: &[u8]) -> Seen {
    let mut seen = Seen {
        help: false,
        version: false,
        option: false,
        second: false,
        unknown: None,
        words: 0,
    };
    for i in from..count(rt) {
        match kind_at(rt, i, option, second) {
            Word::Help => seen.help = true,
            Word::Version => seen.version = true,
            Word::First => seen.option = true,
            Word::Second => seen.second = true,
            Word::Unknown => seen.unknown = Some(i),
            Word::Plain => seen.words += 1,
        }
    }
    seen
}

fn is_plain<R: System>(rt: &R, i: usize) -> bool {
    let mut word = io::buffer();
    let n = argument(rt, i, &mut word);
    !is_option(&word[..n])
}

// The place among the program's arguments of word k, numbered from 0 without options, from an argument on; past them where there is no such word.
pub fn word_from<R: System>(rt: &R, from: usize, k: usize) -> usize {
    let count = count(rt);
    let mut left = k;
    for i in from..count {
        if is_plain(rt, i) {
            if left == 0 {
                return i;
            }
            left -= 1;
        }
    }
    count
}

// The same from argument 1 on: a program's words.
pub fn word_at<R: System>(rt: &R, k: usize) -> usize {
    word_from(rt, 1, k)
}

// Word k at the start of a buffer, and its length; 0 where it is not there or too long.
// Ruled out: a length beyond the buffer.
pub fn word<R: System>(rt: &R, k: usize, buf: &mut [u8]) -> usize
    ensures { IsPrefixLen result buf.new }
{
    argument(rt, word_at(rt, k), buf)
}

// The same from an argument on.
// Ruled out: a length beyond the buffer.
pub fn named_word<R: System>(rt: &R, from: usize, k: usize, buf: &mut [u8]) -> usize
    ensures { IsPrefixLen result buf.new }
{
    argument(rt, word_from(rt, from, k), buf)
}

fn say_unknown<R: System>(rt: &R, program: &[u8], i: usize) {
    let mut word = io::buffer();
    let n = argument(rt, i, &mut word);
    say_of(program, b"unknown option ", &word[..n]);
}

// What was asked for is on standard output; where it could not be written, that is said.
fn answered(program: &[u8], written: std::io::Result<()>) -> Stopped {
    match written {
        Ok(()) => Stopped::Answered,
        Err(e) => {
            fail(program, b"standard output", e);
            Stopped::Wrong
        }
    }
}

fn write_help<R: System>(rt: &R, usage: &[u8], help: &[u8]) -> std::io::Result<()> {
    let output = Sink::output(rt);
    output.write_all(usage)?;
    output.write_all(help)
}

// The usage and the help on standard output.
pub fn print_help<R: System>(rt: &R, program: &[u8], usage: &[u8], help: &[u8]) -> Stopped {
    answered(program, write_help(rt, usage, help))
}

// The program's name and its version on standard output.
pub fn print_version<R: System>(rt: &R, program: &[u8]) -> Stopped {
    answered(program, write_version(rt, program))
}

// The command from an argument on, where it has from `least` to `most` words beside options, and no option that the program doesn't know. Otherwise
// what is wrong is said, with the usage. --help writes the usage and the help, --version the program's name and version, and it does not go on. An
// option that is empty is never given.
// Ruled out: a program that goes on without a word that it needs; one that goes on with a word that it won't look at.
pub fn read_from<R: System>(
    rt: &R,
    from: usize,
    program: &[u8],
    option: &[u8],
    second: &[u8],
    least: usize,
    most: usize,
    usage: &[u8],
    help: &[u8],
) -> Result<Command, Stopped>
    ensures { IfOk result (λ c. Expected least most c.words) }
{
    let seen = see(rt, from, option, second);
    if seen.help {
        return Err(print_help(rt, program, usage, help));
    }
    if seen.version {
        return Err(print_version(rt, program));
    }
    if let Some(i) = seen.unknown {
        say_unknown(rt, program, i);
    } else if seen.words < least {
        say(program, b"too few arguments\n");
    } else if seen.words > most {
        say(program, b"too many arguments\n");
    } else {
        return Ok(Command {
            option: seen.option,
            second: seen.second,
            words: seen.words,
        });
    }
    io::write_all(ERROR, usage);
    Err(Stopped::Wrong)
}

// The same from argument 1 on: a program's command.
// Ruled out: a program that goes on without a word that it needs; one that goes on with a word that it won't look at.
pub fn read_two<R: System>(
    rt: &R,
    program: &[u8],
    option: &[u8],
    second: &[u8],
    least: usize,
    most: usize,
    usage: &[u8],
    help: &[u8],
) -> Result<Command, Stopped>
    ensures { IfOk result (λ c. Expected least most c.words) }
{
    read_from(rt, 1, program, option, second, least, most, usage, help)
}

// The same for a program with one option, or with none, which is empty.
// Ruled out: a program that goes on without a word that it needs; one that goes on with a word that it won't look at.
pub fn read<R: System>(
    rt: &R,
    program: &[u8],
    option: &[u8],
    least: usize,
    most: usize,
    usage: &[u8],
    help: &[u8],
) -> Result<Command, Stopped>
    ensures { IfOk result (λ c. Expected least most c.words) }
{
    read_two(rt, program, option, b"", least, most, usage, help)
}
