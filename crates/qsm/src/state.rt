// The state of the module, and its reset.
ghost use Rattle.std.specs.Prelude.{◌≡◌};
ghost use Rattle.qsm.specs.model.State.{reset_module};

use qspi::Qspi;
use sci::serial::Sci;

#[repr(C)]
#[derive(Clone, Copy)]
pub struct Module {
    pub sci: Sci,
    pub qspi: Qspi,
    pub qsmcr: u16,
    pub qilr: u8,
    pub qivr: u8,
    pub portqs: u8,
    pub pqspar: u8,
    pub ddrqs: u8,
    // The pin levels of the last hold; 0 from a reset to a hold.
    pub inputs: u8,
    // The clocks since reset; before any reset, since the start.
    pub clock: u64,
}

impl Module {
    // Ruled out: SUPV clear; a half kept; the count of clocks kept.
    pub fn reset() -> Module
        ensures { result ≡ reset_module }
    {
        Module {
            sci: Sci::reset(),
            qspi: Qspi::reset(),
            qsmcr: 0x0080,
            qilr: 0,
            qivr: 0x0F,
            portqs: 0,
            pqspar: 0,
            ddrqs: 0,
            inputs: 0,
            clock: 0,
        }
    }

    // The noise figure of the word in SCDR.
    // Ruled out: that of the frame under way; one for any figure above 0.
    pub fn noise(self) -> u8
        ensures { result ≡ self.sci.receiver.noise }
    {
        let sci = self.sci;
        sci.noise()
    }

    // Frames taken since the last reset, the lost ones with them.
    // Ruled out: those slept through with them; only those that entered SCDR.
    pub fn taken(self) -> u32
        ensures { result ≡ self.sci.account.taken }
    {
        let sci = self.sci;
        sci.taken()
    }

    // Frames lost since the last reset.
    // Ruled out: rises of OR; frames taken.
    pub fn lost(self) -> u32
        ensures { result ≡ self.sci.account.lost }
    {
        let sci = self.sci;
        sci.lost()
    }
}
