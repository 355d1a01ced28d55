// The eight pins as sets, bit k for pin k: MISO, MOSI, SCK, PCS0 to PCS3, TXD; which are driven, and at what level.
ghost use Rattle.std.specs.Prelude.{◌≡◌, cond};
ghost use Rattle.qsm.specs.model.Pins.{outputs, without, select, mask, owned, own_levels, levels, portqs_read};

use crate::state::Module;

// What the pins depend on: what the two halves put out, and the pin registers.
#[derive(Clone, Copy)]
pub struct Outputs {
    pub spe: bool,
    pub mosi: bool,
    pub sck: bool,
    pub pcs: u8,
    pub driving: bool,
    pub txd: bool,
    pub portqs: u8,
    pub pqspar: u8,
    pub ddrqs: u8,
}

// Ruled out: MOSI and SCK swapped; the directions for the assignment.
pub fn outputs_of(m: Module) -> Outputs
    ensures { result ≡ outputs m }
{
    let qspi = m.qspi;
    let sci = m.sci;
    Outputs {
        spe: qspi.enabled(),
        mosi: qspi.mosi(),
        sck: qspi.sck(),
        pcs: qspi.pcs(m.portqs),
        driving: sci.txd_driven(),
        txd: sci.txd(),
        portqs: m.portqs,
        pqspar: m.pqspar,
        ddrqs: m.ddrqs,
    }
}

// A set of pins, where it holds; else none.
fn pins_if(holds: bool, pins: u8) -> u8
    ensures { result ≡ cond holds pins 0 }
{
    if holds { pins } else { 0 }
}

fn without(a: u8, b: u8) -> u8
    ensures { result ≡ without a b }
{
    a - (a & b)
}

// The levels of a where a pin is in the set, of b elsewhere.
fn select(pins: u8, a: u8, b: u8) -> u8
    ensures { result ≡ select pins a b }
{
    (a & pins) | without(b, pins)
}

impl Outputs {
    // The driven pins.
    // Ruled out: an assigned MISO driven with SPE set; SCK left to DDRQS then.
    pub fn mask(self) -> u8
        ensures { result ≡ mask self }
    {
        let port = without(self.ddrqs, pins_if(self.spe, self.pqspar & 1));
        port | pins_if(self.spe, 4) | pins_if(self.driving, 128)
    }

    // The pins whose level is the queue's or the transmitter's, if they are driven.
    fn owned(self) -> u8
        ensures { result ≡ owned self }
    {
        pins_if(self.spe, (self.pqspar & 122) | 4) | pins_if(self.driving, 128)
    }

    fn own_levels(self) -> u8
        ensures { result ≡ own_levels self }
    {
        pins_if(self.mosi, 2) | pins_if(self.sck, 4) | self.pcs % 16 * 8 | pins_if(self.txd, 128)
    }

    // The levels of the driven pins; 0 for the others.
    // Ruled out: an input shown; an unassigned PCS as the queue's.
    pub fn levels(self) -> u8
        ensures { result ≡ levels self }
    {
        select(self.owned(), self.own_levels(), self.portqs) & self.mask()
    }

    // PORTQS as it is read: driven levels, else the last input.
    // Ruled out: the port's register; an input in place of a driven level.
    pub fn portqs_read(self, inputs: u8) -> u8
        ensures { result ≡ portqs_read self inputs }
    {
        select(self.mask(), self.levels(), inputs)
    }
}
