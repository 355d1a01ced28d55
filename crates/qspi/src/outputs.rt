// What the queue puts on SCK, MOSI and the four PCS, and whether it asks for an interrupt.
ghost use Rattle.std.specs.Prelude.{◌≡◌};
ghost use Rattle.qspi.specs.model.Outputs.{enabled, sck, mosi, pcs, asks};

use crate::Qspi;
use crate::fields::{cpol, spe};
use steps::choose;

impl Qspi {
    // Ruled out: always true; the bit inverted.
    pub fn enabled(self) -> bool
        ensures { result ≡ enabled self }
    {
        spe(self.registers.spcr1)
    }

    // Ruled out: resting at zero with CPOL set; turning at every second edge.
    pub fn sck(self) -> bool
        ensures { result ≡ sck self }
    {
        let rest = cpol(self.registers.spcr0);
        choose(self.entry.edges % 2 == 1, !rest, rest)
    }

    // Ruled out: the bit inverted; always false.
    pub fn mosi(self) -> bool
        ensures { result ≡ mosi self }
    {
        self.entry.mosi
    }

    // Ruled out: PORTQS in an entry; the command's value after its end.
    pub fn pcs(self, portqs: u8) -> u8
        ensures { result ≡ pcs self portqs }
    {
        if self.entry.selecting {
            self.entry.command % 16
        } else {
            portqs / 8 % 16
        }
    }

    // Ruled out: the register's SPIFIE; MODF without HMIE.
    pub fn asks(self) -> bool
        ensures { result ≡ asks self }
    {
        (self.spsr.flags.spif & (self.next.working / 0x8000 % 2 == 1))
            | ((self.spsr.flags.modf | self.spsr.flags.halta) & (self.registers.spcr3 / 2 % 2 == 1))
    }
}
