// The entry under way: its bits on MOSI and MISO, its edges, the delay after it, and its end.
ghost use Rattle.std.specs.Prelude.{◌≡◌};
ghost use Rattle.qspi.specs.model.Entry.{changes, bit_out, mosi_after, pushed, collected_after, started, edge_fallen, ticked, delay_begun, in_delay, delay_over, abandoned, silent};

use crate::fields::{bits_of, cont, cpha, pre_delay, spbr};
use crate::registers::Registers;
use steps::choose;

#[repr(C)]
#[derive(Clone, Copy, PartialEq, Eq)]
pub struct Entry {
    // What clock 1 took: the transmit word and the command.
    pub word: u16,
    pub command: u8,
    // Between clock 1 and edge 2n; in the delay after edge 2n; waiting for HALT to clear. None of them: before clock 1.
    pub playing: bool,
    pub delaying: bool,
    pub halted: bool,
    // Clocks to the next edge, or to the end of the delay.
    pub left: u16,
    // Edges that have fallen.
    pub edges: u8,
    pub mosi: bool,
    // The bits read on MISO so far.
    pub collected: u16,
    // The PCS show the command's value, not PORTQS.
    pub selecting: bool,
}

// MOSI changes on this edge.
pub(crate) fn changes(cpha: bool, j: u8) -> bool
    ensures { result ≡ changes cpha j }
{
    if cpha { j % 2 == 1 } else { j % 2 == 0 }
}

pub(crate) fn bit_out(w: u16, n: u16, i: u16) -> bool
    ensures { result ≡ bit_out w n i }
{
    (w >> (n.saturating_sub(1).saturating_sub(i) % 16)) % 2 == 1
}

fn mosi_after(cpha: bool, n: u16, w: u16, j: u8, mosi: bool) -> bool
    ensures { result ≡ mosi_after cpha n w j mosi }
{
    let i = (j / 2) as u16;
    choose(changes(cpha, j) & (i < n), bit_out(w, n, i), mosi)
}

pub(crate) fn pushed(collected: u16, miso: bool) -> u16
    ensures { result ≡ pushed collected miso }
{
    if miso {
        collected % 0x8000 * 2 + 1
    } else {
        collected % 0x8000 * 2
    }
}

fn collected_after(cpha: bool, j: u8, miso: bool, collected: u16) -> u16
    ensures { result ≡ collected_after cpha j miso collected }
{
    choose(changes(!cpha, j), pushed(collected, miso), collected)
}

// Clock 1 with this command and transmit word.
// Ruled out: the first bit out for CPHA=1; the pre-delay left out; bits of the entry before kept.
pub fn started(registers: Registers, command: u8, word: u16, mosi: bool) -> Entry
    ensures { result ≡ started registers command word mosi }
{
    let spcr0 = registers.spcr0;
    Entry {
        command,
        word,
        playing: true,
        delaying: false,
        halted: false,
        left: pre_delay(spcr0, registers.spcr1, command),
        edges: 0,
        mosi: mosi_after(cpha(spcr0), bits_of(spcr0, command), word, 0, mosi),
        collected: 0,
        selecting: true,
    }
}

impl Entry {
    // Edge j, before it is asked whether it is edge 2n.
    // Ruled out: MISO read on the edges on which MOSI changes; SPBR counted from the edge before.
    pub fn edge_fallen(mut self, spcr0: u16, j: u8, miso: bool) -> Entry
        ensures { result ≡ edge_fallen spcr0 j miso self }
    {
        self.left = spbr(spcr0);
        self.edges = j;
        self.mosi = mosi_after(
            cpha(spcr0),
            bits_of(spcr0, self.command),
            self.word,
            j,
            self.mosi,
        );
        self.collected = collected_after(cpha(spcr0), j, miso, self.collected);
        self
    }

    // Ruled out: two clocks counted; an edge.
    pub fn ticked(mut self) -> Entry
        ensures { result ≡ ticked self }
    {
        self.left = self.left.saturating_sub(1);
        self
    }

    // Ruled out: the PCS back at PORTQS in edge 2n's clock; the delay not counted.
    pub fn delay_begun(mut self, clocks: u16) -> Entry
        ensures { result ≡ delay_begun clocks self }
    {
        self.playing = false;
        self.delaying = true;
        self.halted = false;
        self.left = clocks;
        self.edges = 0;
        self
    }

    // Ruled out: the PCS kept without CONT; the delay not counted.
    pub fn in_delay(mut self) -> Entry
        ensures { result ≡ in_delay self }
    {
        self.left = self.left.saturating_sub(1);
        self.selecting = self.selecting & cont(self.command);
        self
    }

    // Ruled out: a halt in any case; the PCS kept without CONT.
    pub fn delay_over(mut self, halts: bool) -> Entry
        ensures { result ≡ delay_over halts self }
    {
        self.playing = false;
        self.delaying = false;
        self.halted = halts;
        self.left = 0;
        self.selecting = self.selecting & cont(self.command);
        self
    }

    // Ruled out: an entry that goes on; the PCS kept.
    pub fn abandoned(mut self) -> Entry
        ensures { result ≡ abandoned self }
    {
        self.playing = false;
        self.delaying = false;
        self.halted = false;
        self.left = 0;
        self.edges = 0;
        self.selecting = false;
        self
    }

    // Ruled out: the last bit kept on MOSI; a one.
    pub fn silent(mut self) -> Entry
        ensures { result ≡ silent self }
    {
        self.mosi = false;
        self
    }
}
