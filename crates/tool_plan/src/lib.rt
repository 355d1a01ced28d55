// Set-points packed into the queue: a plan of entries, pointers and registers with the clock of its last edge; a checker that says what a
// plan is, and a planner that proposes the quickest.
#![tactic(auto)]

ghost use Rattle.std.specs.Prelude.{◌≡◌, ◌-◌, true, false, MatchOption};
ghost use Rattle.tool_plan.specs.Check.{each, in_range, ranged, proper, carries, carried, pointed, allowed, last_edge, accepts};
ghost use Rattle.qspi.specs.claims.Run.{last_clock_of, length_of};

mod claims;
pub mod load;
mod points;
pub mod quickest;

use points::Points;
use qspi::fields::{bits_of, delay_after, mstr, pre_delay, spbr, spe, wren};
use qspi::registers::spcr0_unmodelled;

// Up to sixteen set-points in order, of which the first `count` are meant: chip select, bits, and the word.
#[repr(C)]
#[derive(Clone, Copy)]
pub struct SetPoints {
    pub count: u8,
    pub selects: [u8; 16],
    pub bits: [u8; 16],
    pub words: [u16; 16],
}

// A plan: its entries from the first pointer on, of which the first `count` are meant, by command byte and transmit word; the first and the last
// pointer; SPCR0, SPCR1 and the rest of SPCR2; and the clock of the last edge.
#[repr(C)]
#[derive(Clone, Copy)]
pub struct Plan {
    pub clock: u64,
    pub spcr0: u16,
    pub spcr1: u16,
    pub spcr2: u16,
    pub count: u8,
    pub first: u8,
    pub last: u8,
    pub commands: [u8; 16],
    pub words: [u16; 16],
}

// What the planner answers: a plan, or refusal 11 and a plan of zeros.
#[repr(C)]
#[derive(Clone, Copy)]
pub struct Planned {
    pub plan: Plan,
    pub refusal: u8,
}

// ---- the checker

// A set-point in range.
fn in_range(select: u8, bits: u8, word: u16) -> bool
    ensures { result ≡ in_range select bits word }
{
    select <= 15 && 8 <= bits && bits <= 16 && u32::from(word) < 1 << bits
}

// One to sixteen set-points, each in range.
#[tactic(auto, unfolding(crate::specs::Check::proper))]
fn proper(points: SetPoints) -> Option<Points>
    ensures { MatchOption result (proper points ≡ false) (λ p. (p.given ≡ points) × (proper points ≡ true)) }
{
    if points.count < 1 || 16 < points.count {
        return None;
    }
    let proper = Points { given: points };
    if !proper.in_ranges() {
        return None;
    }
    Some(proper)
}

// An entry with a set-point's own select, bit count and whole word.
fn carries(spcr0: u16, command: u8, sent: u16, select: u8, bits: u8, word: u16) -> bool
    ensures { result ≡ carries spcr0 command sent select bits word }
{
    (command % 16 == select) & (sent == word) & (bits_of(spcr0, command) == bits as u16)
}

impl Points {
    #[tactic(auto, unfolding(crate::specs::Check::each))]
    fn in_ranges(self) -> bool
        ensures { result ≡ each self.given.count (ranged self.given) }
    {
        let points = self.given;
        let mut all = true;
        for k in 0..usize::from(points.count) {
            all &= in_range(points.selects[k], points.bits[k], points.words[k]);
        }
        all
    }

    #[tactic(auto, unfolding(crate::specs::Check::each))]
    fn carried(self, plan: Plan) -> bool
        ensures { result ≡ each self.given.count (carried self.given plan) }
    {
        let points = self.given;
        let mut all = true;
        for k in 0..usize::from(points.count) {
            all &= carries(
                plan.spcr0,
                plan.commands[k],
                plan.words[k],
                points.selects[k],
                points.bits[k],
                points.words[k],
            );
        }
        all
    }

    // The clock of the last edge, of a plan of as many entries.
    #[tactic(auto, unfolding(crate::specs::Check::clock_before))]
    pub(crate) fn last_edge(self, plan: Plan) -> u64
        ensures { result ≡ last_edge plan (self.given.count - 1) }
    {
        let last = usize::from(self.given.count) - 1;
        let mut clocks = last_clock(plan.spcr0, plan.spcr1, plan.commands[last]);
        for k in 0..last {
            clocks += length(plan.spcr0, plan.spcr1, plan.commands[k]);
        }
        clocks
    }
}

// Consecutive entries modulo 16 from the first pointer to the last.
fn pointed(plan: Plan) -> bool
    ensures { result ≡ pointed plan }
{
    let next = (plan.first as u16 + plan.count as u16) % 16;
    (plan.first <= 15) & (plan.last <= 15) & (next == (plan.last as u16 + 1) % 16)
}

// SPBR of 2 or more, MSTR and SPE set, WREN clear, nothing that refusal 3 names.
fn allowed(plan: Plan) -> bool
    ensures { result ≡ allowed plan }
{
    (2 <= spbr(plan.spcr0))
        & mstr(plan.spcr0)
        & spe(plan.spcr1)
        & !wren(plan.spcr2)
        & !spcr0_unmodelled(plan.spcr0, true)
}

// The clock of edge 2n, from the entry's clock 1.
fn last_clock(spcr0: u16, spcr1: u16, command: u8) -> u64
    ensures { result ≡ last_clock_of spcr0 spcr1 command }
{
    let edges = bits_of(spcr0, command) as u64 * 2;
    let between = (edges - 1) * spbr(spcr0) as u64;
    pre_delay(spcr0, spcr1, command) as u64 + between
}

// The clocks of an entry with its delay.
fn length(spcr0: u16, spcr1: u16, command: u8) -> u64
    ensures { result ≡ length_of spcr0 spcr1 command }
{
    last_clock(spcr0, spcr1, command) + delay_after(spcr1, command) as u64
}

// Whether a plan is one for these set-points and this window.
// Ruled out: a word out of order or a count of another entry accepted; WREN let through; a clock one short; a plan at its window refused.
pub fn accepts(points: SetPoints, window: u64, plan: Plan) -> bool
    ensures { result ≡ accepts points window plan }
{
    let Some(proper) = proper(points) else {
        return false;
    };
    if plan.count != points.count {
        return false;
    }
    proper.carried(plan)
        & pointed(plan)
        & allowed(plan)
        & (plan.clock == proper.last_edge(plan))
        & (plan.clock <= window)
}
