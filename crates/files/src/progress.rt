// How far a program has come with a long input, said where standard error is a terminal.
use crate::message::ERROR;
use crate::origin::Origin;
use crate::system::System;
use std::io::IsTerminal;
use std::time::Duration;

// Whether the last so many bytes up to a place have come past a multiple of the bytes from one message to the next: 256 KiB at first, for an input that
// takes long, then 4 MiB, then 64 MiB.
fn passes(place: u64, more: usize) -> bool {
    let n = more as u64;
    if place < 0x40_0000 {
        return place % 0x4_0000 < n;
    }
    if place < 0x400_0000 {
        return place % 0x40_0000 < n;
    }
    place % 0x400_0000 < n
}

// Whether a program has used a second of the processor.
fn takes_long<R: System>(rt: &R) -> bool {
    rt.process_cpu_time()
        .is_ok_and(|t| t > Duration::from_secs(1))
}

// Says, once a program has used a second of the processor, how much of a file was read, when so many bytes more were. Of what has no place, as a pipe,
// nothing is said.
pub fn tell<R: System>(rt: &R, from: &Origin, more: usize) {
    if !rt.error().is_terminal() {
        return;
    }
    let place = from.place();
    if place == 0 {
        return;
    }
    if passes(place, more) && takes_long(rt) {
        io::print_decimal(ERROR, place / 1024);
        io::write_all(ERROR, b" KiB read\n");
    }
}
