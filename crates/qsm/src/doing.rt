// What an event does to a module: a reset, a hold, a read or a write, with the refusal's number and the value read.
ghost use Rattle.std.specs.Prelude.{◌≡◌, ◌+◌, ◌≤◌};
ghost use Rattle.qsm.specs.model.Decision.{stored_by};
ghost use Rattle.qsm.specs.model.Event.{done, refused, clock_limit, passes, clocks, held, after_read, read_value, read_decided, write_decided, holds, reads, writes, accesses, does};

use crate::access::Store;
use crate::decision::{Decision, permits, refusal_of};
use crate::event::{Access, Done, Event};
use crate::lanes::{halves, lane, lined, lower_lane, touches, upper_lane};
use crate::queue::queue_read;
use crate::serial::serial_read;
use crate::state::Module;

impl Module {
    pub(crate) fn done(self, refusal: u8, value: u32) -> Done
        ensures { result ≡ done self refusal value }
    {
        Done {
            state: self,
            refusal,
            value,
        }
    }

    fn refused(self, d: Decision) -> Done
        ensures { result ≡ refused d self }
    {
        self.done(refusal_of(d), 0)
    }

    // Whether so many clocks more would pass 2^64 - 1.
    // Ruled out: reaching 2^64 - 1 taken for passing it; a sum that wraps.
    pub fn passes(self, n: u32) -> bool
        ensures { result ≡ passes self n }
    {
        0xFFFFFFFFFFFFFFFF - (n as u64) < self.clock
    }

    // So many clocks at the levels of the last hold and a level on RXD. The halves don't depend on each other within a hold, and a queue with
    // SPE clear stays as it is.
    fn clocks(mut self, rxd: bool, n: u32) -> Module
        requires { self.clock + n ≤ clock_limit }
        ensures { result ≡ clocks self rxd n }
    {
        let pins = qspi::Pins {
            levels: self.inputs,
            pqspar: self.pqspar,
            ddrqs: self.ddrqs,
        };
        let qspi = self.qspi;
        if qspi.enabled() {
            let queue = qspi.clocks(n, pins);
            self.qspi = queue;
        }
        let sci = self.sci;
        let serial = sci.clocks(n, rxd);
        self.sci = serial;
        self.clock += n as u64;
        self
    }

    fn held(mut self, pins: u8) -> Module
        ensures { result ≡ held self pins }
    {
        self.inputs = pins;
        self
    }

    // What a permitted read leaves.
    fn after_read(mut self, width: u8, offset: u16) -> Module
        ensures { result ≡ after_read self width offset }
    {
        let sci = self.sci;
        let qspi = self.qspi;
        let serial = serial_read(
            sci,
            touches(0x0C, 2, width, offset),
            touches(0x0F, 1, width, offset),
        );
        let queue = queue_read(qspi, touches(0x1F, 1, width, offset));
        self.sci = serial;
        self.qspi = queue;
        self
    }

    // What a permitted read gives.
    fn read_value(self, width: u8, offset: u16) -> u32
        ensures { result ≡ read_value self width offset }
    {
        lane(
            width,
            upper_lane(width, offset),
            self.fetched(offset, halves(width)),
        )
    }

    fn read_decided(self, d: Decision, width: u8, offset: u16) -> Done
        ensures { result ≡ read_decided d self width offset }
    {
        if permits(d) {
            let value = self.read_value(width, offset);
            self.after_read(width, offset).done(0, value)
        } else {
            self.refused(d)
        }
    }

    fn write_decided(self, d: Decision, s: Store) -> Done
        ensures { result ≡ write_decided d self s }
    {
        if permits(d) {
            let next = s.state;
            next.done(0, 0)
        } else {
            self.refused(d)
        }
    }

    fn holds(self, pins: u8, rxd: bool, clocks: u32) -> Done
        ensures { result ≡ holds self pins rxd clocks }
    {
        if self.passes(clocks) {
            self.done(10, 0)
        } else {
            self.held(pins).clocks(rxd, clocks).done(0, 0)
        }
    }

    fn reads(self, supervisor: bool, width: u8, offset: u16) -> Done
        ensures { result ≡ reads self supervisor width offset }
    {
        let d = self.decide_read(supervisor, width, offset);
        self.read_decided(d, width, offset)
    }

    fn stored_by(self, width: u8, offset: u16, value: u32) -> Store
        ensures { result ≡ stored_by self width offset value }
    {
        self.stored(
            offset,
            halves(width),
            lined(width, value),
            upper_lane(width, offset),
            lower_lane(width, offset),
        )
    }

    pub(crate) fn writes(self, supervisor: bool, width: u8, offset: u16, value: u32) -> Done
        ensures { result ≡ writes self supervisor width offset value }
    {
        let s = self.stored_by(width, offset, value);
        let d = self.decide_write(s, supervisor, width, offset, value);
        self.write_decided(d, s)
    }

    fn accesses(self, a: Access) -> Done
        ensures { result ≡ accesses self a }
    {
        match a {
            Access::Read(supervisor, width, offset) => self.reads(supervisor, width, offset),
            Access::Write(supervisor, width, offset, value) => self.writes(
                supervisor, width, offset, value,
            ),
        }
    }

    pub(crate) fn does(self, e: Event) -> Done
        ensures { result ≡ does self e }
    {
        match e {
            Event::Reset => Module::reset().done(0, 0),
            Event::Hold(pins, rxd, clocks) => self.holds(pins, rxd, clocks),
            Event::Access(a) => self.accesses(a),
        }
    }
}
