// A word of the map, by the part of the module that has it.
ghost use Rattle.std.specs.Prelude.{◌≡◌};
ghost use Rattle.qsm.specs.model.State.{with_sci, with_qspi};
ghost use Rattle.qsm.specs.model.Word.{peek, put, unmodelled, guarded};

use crate::map::Place;
use crate::own::own_unmodelled;
use crate::queue::{peek_queue, put_queue, queue_guarded, queue_unmodelled};
use crate::serial::{peek_serial, put_serial, serial_guarded, serial_unmodelled};
use crate::state::Module;
use qspi::Qspi;
use sci::serial::Sci;

impl Module {
    fn with_sci(mut self, s: Sci) -> Module
        ensures { result ≡ with_sci self s }
    {
        self.sci = s;
        self
    }

    fn with_qspi(mut self, q: Qspi) -> Module
        ensures { result ≡ with_qspi self q }
    {
        self.qspi = q;
        self
    }

    // The word as it is read; 0 in a hole.
    // Ruled out: every read answered 0; a word of the other half.
    pub fn peek(self, p: Place) -> u16
        ensures { result ≡ peek self p }
    {
        let sci = self.sci;
        let qspi = self.qspi;
        match p {
            Place::Own(w) => self.peek_own(w),
            Place::Serial(w) => peek_serial(sci, w),
            Place::Queue(w) => peek_queue(qspi, w),
            Place::Hole => 0,
        }
    }

    // A write of a word's bytes, with no test.
    // Ruled out: events ignored; a write to another place.
    pub fn put(self, p: Place, v: u16, upper: bool, lower: bool) -> Module
        ensures { result ≡ put self p v upper lower }
    {
        let sci = self.sci;
        let qspi = self.qspi;
        match p {
            Place::Own(w) => self.put_own(w, v, upper, lower),
            Place::Serial(w) => self.with_sci(put_serial(sci, w, v, upper, lower)),
            Place::Queue(w) => self.with_qspi(put_queue(qspi, w, v, upper, lower)),
            Place::Hole => self,
        }
    }

    // Whether a write of a word's bytes would set a bit that is not modelled, BITS 1 to 7, or SPE with MSTR clear (refusal 3).
    // Ruled out: STOP let through; a byte that is not touched asked.
    pub fn unmodelled(self, p: Place, v: u16, upper: bool, lower: bool) -> bool
        ensures { result ≡ unmodelled self p v upper lower }
    {
        let qspi = self.qspi;
        match p {
            Place::Own(w) => own_unmodelled(w, v, upper),
            Place::Serial(w) => serial_unmodelled(w, v, upper, lower),
            Place::Queue(w) => queue_unmodelled(qspi, w, v, upper),
            Place::Hole => false,
        }
    }

    // Whether a write of a word's bytes changes a guarded field while its half is on (refusal 4).
    // Ruled out: the same value refused; SCCR0 let through while RE is set.
    pub fn guarded(self, p: Place, v: u16, upper: bool, lower: bool) -> bool
        ensures { result ≡ guarded self p v upper lower }
    {
        let sci = self.sci;
        let qspi = self.qspi;
        match p {
            Place::Own(_) => false,
            Place::Serial(w) => serial_guarded(sci, w, v, upper, lower),
            Place::Queue(w) => queue_guarded(qspi, w, v, upper, lower),
            Place::Hole => false,
        }
    }
}
