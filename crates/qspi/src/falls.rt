// The edges of an entry that fall in a hold, which keeps MISO at one level: what they leave is worked out for all of them at once.
ghost use Rattle.std.specs.Prelude.{◌≡◌};
ghost use Rattle.qspi.specs.quick.Falls.{change_by, mosi_since, reads_by, collected_since, edges_fallen};

use crate::entry::{Entry, bit_out, changes, pushed};
use crate::fields::{bits_of, cpha, spbr};
use steps::choose;

// The last edge up to j on which MOSI changes.
fn change_by(cpha: bool, j: u8) -> u8
    ensures { result ≡ change_by cpha j }
{
    choose(changes(cpha, j), j, j.saturating_sub(1))
}

// MOSI after the edges past edge `from` up to j.
fn mosi_since(cpha: bool, n: u16, w: u16, from: u8, j: u8, mosi: bool) -> bool
    ensures { result ≡ mosi_since cpha n w from j mosi }
{
    let at = change_by(cpha, j);
    choose(from < at, bit_out(w, n, (at / 2) as u16), mosi)
}

// Edges up to j on which MISO is read.
fn reads_by(cpha: bool, j: u8) -> u8
    ensures { result ≡ reads_by cpha j }
{
    if cpha { j / 2 } else { j - j / 2 }
}

// The bits read after the edges past edge `from` up to j.
fn collected_since(cpha: bool, from: u8, j: u8, miso: bool, collected: u16) -> u16
    ensures { result ≡ collected_since cpha from j miso collected }
{
    let mut c = collected;
    for _ in reads_by(cpha, from)..reads_by(cpha, j) {
        c = pushed(c, miso);
    }
    c
}

impl Entry {
    // The edges past the last one up to edge j, before edge 2n.
    // Ruled out: MISO read once for all of them; the level of MOSI before the last change; the count to the next edge kept.
    pub fn edges_fallen(mut self, spcr0: u16, j: u8, miso: bool) -> Entry
        ensures { result ≡ edges_fallen spcr0 j miso self }
    {
        let from = self.edges % 32;
        if j <= from {
            return self;
        }
        let phase = cpha(spcr0);
        let n = bits_of(spcr0, self.command);
        self.left = spbr(spcr0);
        self.edges = j;
        self.mosi = mosi_since(phase, n, self.word, from, j, self.mosi);
        self.collected = collected_since(phase, from, j, miso, self.collected);
        self
    }
}
