// What a driver reaches of the register map and what it may write there (02, L11).
ghost use Rattle.std.specs.Prelude.{◌≡◌, false};
ghost use Rattle.drivers.specs.Reach.{reaches_queue, reaches_word, reaches, fit, writes_spcr1, writes_spcr2, writes_queue, writes_word, writes, allows, admits};

use crate::state::{Driver, Shared, owns};
use qsm::access::Store;
use qsm::decision::permits;
use qsm::event::Access;
use qsm::lanes::{lined, lower_lane, upper_lane};
use qsm::map::{Place, QueueWord, decode};
use qsm::state::Module;
use qspi::fields::{spe, wren};
use qspi::registers::Registers;
use steps::merge;

// A word of the queue half, of which an access touches the upper byte, the lower byte or both.
fn reaches_queue(
    split: u8,
    who: Driver,
    claimed: bool,
    w: QueueWord,
    upper: bool,
    lower: bool,
) -> bool
    ensures { result ≡ reaches_queue split who claimed w upper lower }
{
    match w {
        QueueWord::Spcr0 => false,
        QueueWord::Spcr1 | QueueWord::Spcr2 | QueueWord::Spcr3Spsr => claimed,
        QueueWord::Receive(i) | QueueWord::Transmit(i) => owns(split, who, i as u16),
        QueueWord::Command(i) => {
            let first = (i as u16) * 2;
            (!upper | owns(split, who, first)) & (!lower | owns(split, who, first + 1))
        }
    }
}

fn reaches_word(split: u8, who: Driver, claimed: bool, p: Place, upper: bool, lower: bool) -> bool
    ensures { result ≡ reaches_word split who claimed p upper lower }
{
    match p {
        Place::Own(_) => false,
        Place::Serial(_) => false,
        Place::Queue(w) => reaches_queue(split, who, claimed, w, upper, lower),
        Place::Hole => false,
    }
}

// SPCR2 as a driver may have it.
fn fit(split: u8, who: Driver, spcr2: u16) -> bool
    ensures { result ≡ fit split who spcr2 }
{
    let first = spcr2 % 16;
    let last = spcr2 / 256 % 16;
    ((owns(split, who, first) & owns(split, who, last)) & (first <= last))
        & (!wren(spcr2) | (spcr2 / 8192 % 2 == 1))
}

fn writes_spcr1(split: u8, who: Driver, regs: Registers, v: u16, upper: bool, lower: bool) -> bool
    ensures { result ≡ writes_spcr1 split who regs v upper lower }
{
    let after = merge(regs.spcr1, v, upper, lower);
    (after % 32768 == regs.spcr1 % 32768) & (!(upper & spe(v)) | fit(split, who, regs.spcr2))
}

fn writes_spcr2(split: u8, who: Driver, regs: Registers, v: u16, upper: bool, lower: bool) -> bool
    ensures { result ≡ writes_spcr2 split who regs v upper lower }
{
    let after = merge(regs.spcr2, v, upper, lower);
    fit(split, who, after) & (!spe(regs.spcr1) | (upper & lower))
}

fn writes_queue(
    split: u8,
    who: Driver,
    regs: Registers,
    w: QueueWord,
    v: u16,
    upper: bool,
    lower: bool,
) -> bool
    ensures { result ≡ writes_queue split who regs w v upper lower }
{
    match w {
        QueueWord::Spcr1 => writes_spcr1(split, who, regs, v, upper, lower),
        QueueWord::Spcr2 => writes_spcr2(split, who, regs, v, upper, lower),
        _ => true,
    }
}

fn writes_word(
    split: u8,
    who: Driver,
    regs: Registers,
    p: Place,
    v: u16,
    upper: bool,
    lower: bool,
) -> bool
    ensures { result ≡ writes_word split who regs p v upper lower }
{
    match p {
        Place::Queue(w) => writes_queue(split, who, regs, w, v, upper, lower),
        Place::Own(_) | Place::Serial(_) | Place::Hole => true,
    }
}

// A write under way of which nothing is refused.
fn unrefused(m: Module) -> Store
    ensures { result ≡ record { state = m; at = 0; words = 0; unmodelled = false; guarded = false } }
{
    Store {
        state: m,
        at: 0,
        words: 0,
        unmodelled: false,
        guarded: false,
    }
}

// Refusals 1 and 2 and privilege let the access through.
// Ruled out: a blocked user's access admitted; a value too big for its width admitted.
pub fn admits(m: Module, a: Access) -> bool
    ensures { result ≡ admits m a }
{
    match a {
        Access::Read(supervisor, width, offset) => permits(m.decide_read(
            supervisor, width, offset,
        )),
        Access::Write(supervisor, width, offset, value) => permits(m.decide_write(
            unrefused(m),
            supervisor,
            width,
            offset,
            value,
        )),
    }
}

impl Shared {
    // Every byte that an access touches is the driver's.
    fn reaches(self, who: Driver, width: u8, offset: u16) -> bool
        ensures { result ≡ reaches self who width offset }
    {
        let split = self.split;
        let claimed = self.holds(who);
        let at = offset as u32;
        let upper = upper_lane(width, offset);
        let lower = lower_lane(width, offset);
        reaches_word(split, who, claimed, decode(at), upper, lower)
            & ((width != 4) | reaches_word(split, who, claimed, decode(at + 2), upper, lower))
    }

    // Every word of a write is one that the driver may put there.
    fn writes(self, who: Driver, width: u8, offset: u16, value: u32) -> bool
        ensures { result ≡ writes self who width offset value }
    {
        let split = self.split;
        let qspi = self.qsm.qspi;
        let regs = qspi.registers;
        let at = offset as u32;
        let words = lined(width, value);
        let upper = upper_lane(width, offset);
        let lower = lower_lane(width, offset);
        writes_word(
            split,
            who,
            regs,
            decode(at),
            (words / 65536) as u16,
            upper,
            lower,
        ) & ((width != 4)
            | writes_word(
                split,
                who,
                regs,
                decode(at + 2),
                (words % 65536) as u16,
                upper,
                lower,
            ))
    }

    // Ruled out: an access across the border; SPSR read without the claim.
    pub fn allows(self, who: Driver, a: Access) -> bool
        ensures { result ≡ allows self who a }
    {
        match a {
            Access::Read(_, width, offset) => self.begun() & self.reaches(who, width, offset),
            Access::Write(_, width, offset, value) => (self.begun()
                & self.reaches(who, width, offset))
                & self.writes(who, width, offset, value),
        }
    }
}
