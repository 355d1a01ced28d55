// The commands behind one name: `qsm show FILE`, or `qsm-show FILE` by a link, each with its exit status.
#![tactic(auto)]

use console::status::Status;
use files::command::{argument, print_help, print_version};
use files::message::{ERROR, say};
use files::system::System;
use shell::message::say_of;
use shell::target::folder;
use std::env::FillError;

const USAGE: &[u8] = b"\
usage: qsm COMMAND [ARGUMENTS]
       qsm COMMAND --help
       qsm help | qsm version
";

const COMMANDS: &[u8] = b"
Commands:
  replay    play a trace and write its log
  lines     replay what came on RXD and print the lines that polls deliver
  show      print a log or a trace as text
  wave      draw a trace as a VCD file
  compare   tell in which answers and fields two logs differ
  plan      plan set-points for the queue
  editions  keep register settings by edition
  index     make or extend an index of a trace
  find      find a record of a trace by its index

Exit status: 0 done and nothing found, 1 done and something found, 2 could not be done.
";

// The command of a name, whose words begin at an argument, or what qsm says of itself.
fn start<R: System>(rt: &R, name: &[u8], from: usize) -> Status {
    match name {
        b"replay" => cmd_replay::run(rt, from),
        b"lines" => cmd_lines::run(rt, from),
        b"show" => cmd_show::run(rt, from),
        b"wave" => cmd_wave::run(rt, from),
        b"compare" => cmd_compare::run(rt, from),
        b"plan" => cmd_plan::run(rt, from),
        b"editions" => cmd_editions::run(rt, from),
        b"index" => cmd_index::run(rt, from),
        b"find" => cmd_find::run(rt, from),
        b"help" | b"--help" | b"-h" => Status::from(print_help(rt, b"qsm", USAGE, COMMANDS)),
        b"version" | b"--version" => Status::from(print_version(rt, b"qsm")),
        _ => {
            say_of(b"qsm", b"unknown command ", name);
            io::write_all(ERROR, USAGE);
            Status::Failed
        }
    }
}

// The command that argument 1 names; one that is too long is none that is known.
fn by_word<R: System>(rt: &R) -> Status {
    let mut word = io::buffer();
    match rt.arg(1, &mut word) {
        Ok(n) => start(rt, &word[..n], 2),
        Err(FillError::TooLong) => start(rt, b"", 2),
        Err(FillError::NotPresent) => {
            say(b"qsm", b"too few arguments\n");
            io::write_all(ERROR, USAGE);
            Status::Failed
        }
    }
}

// The command that a path's last word tells behind `qsm-`, or else argument 1.
fn by_name<R: System>(rt: &R, path: &[u8]) -> Status {
    match path[folder(path)..].strip_prefix(b"qsm-") {
        Some(name) => start(rt, name, 1),
        None => by_word(rt),
    }
}

// What it was called by, which may be a link.
fn by_link<R: System>(rt: &R) -> Status {
    let mut path = io::buffer();
    let n = argument(rt, 0, &mut path);
    by_name(rt, &path[..n])
}

// What the program's main calls: the command that its arguments ask for, and its exit status.
pub fn qsm_command<R: System>(rt: &R) -> i32 {
    i32::from(by_link(rt))
}
