// A hold of a clock or a few in straight code, for hosts that call for each: what changes of a half, where it is no more than a few fields.
ghost use Rattle.std.specs.Prelude.{◌≡◌, IfSome};
ghost use Rattle.steps.specs.Iterate.{iterate};
ghost use Rattle.sci.specs.model.Serial.{clocked};
ghost use Rattle.sci.specs.quick.Quiet.{with_count};
ghost use Rattle.qspi.specs.model.Queue.{clock};
ghost use Rattle.qspi.specs.model.Parts.{with_entry};
ghost use Rattle.qsm.specs.quick.Holding.{held_of, entry_held};

use qspi::entry::Entry;
use qspi::inputs::miso_of;
use qspi::{Pins, Qspi};
use sci::serial::Sci;

// What a hold that is short for the queue half leaves of the entry.
#[derive(Clone, Copy)]
pub struct QueueHeld {
    pub left: u16,
    pub edges: u8,
    pub mosi: bool,
    pub collected: u16,
    pub selecting: bool,
}

fn held_of(e: Entry) -> QueueHeld
    ensures { result ≡ held_of e }
{
    QueueHeld {
        left: e.left,
        edges: e.edges,
        mosi: e.mosi,
        collected: e.collected,
        selecting: e.selecting,
    }
}

// With SPE clear nothing changes; quiet clocks, and one that brings an edge before edge 2n, change the entry alone.
// Ruled out: edge 2n taken for one of them; the clock of an edge counted as a quiet one.
pub(crate) fn queue_held(q: Qspi, n: u32, pins: Pins) -> Option<QueueHeld>
    ensures { IfSome result (λ h. with_entry q (entry_held q.entry h) ≡ iterate n (λ q. clock q pins) q) }
{
    if !q.enabled() {
        return Some(held_of(q.entry));
    }
    if n <= q.quiet(pins) {
        let t = q.skipped(n);
        return Some(held_of(t.entry));
    }
    let e = q.entry;
    let spcr0 = q.registers.spcr0;
    if (n == 1) & q.plays(pins) & e.edge_within(spcr0, 1) {
        return Some(held_of(e.edge_fallen(spcr0, e.edges % 32 + 1, miso_of(pins))));
    }
    None
}

// Clocks before a sample, and the clock of one that changes nothing, change the prescaler's count alone: what they leave of it.
// Ruled out: a transmitter at rest with a word waiting; a sample that leaves the count.
pub(crate) fn serial_held(s: Sci, n: u32, rxd: bool) -> Option<u16>
    ensures { IfSome result (λ count. with_count s count ≡ iterate n (λ s. clocked s rxd) s) }
{
    let k = s.quiet();
    if n <= k {
        let t = s.skipped(n);
        return Some(t.prescaler);
    }
    if (n - k == 1) & s.rests(rxd) {
        return Some(0);
    }
    None
}
