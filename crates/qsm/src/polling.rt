// A read once more in straight code, for hosts that poll: its words without a loop, what it makes seen in the two status registers alone. Traces have
// `reads` instead: code of this size is compiled in line only where it has one caller, and out of line it copies the whole module.
ghost use Rattle.std.specs.Prelude.{◌≡◌, cond};
ghost use Rattle.sci.specs.model.Flags.{receive_flags};
ghost use Rattle.sci.specs.model.Status.{mark_seen, fall_seen};
ghost use Rattle.qspi.specs.model.Spsr.{flags_seen};
ghost use Rattle.qsm.specs.model.State.{with_sci, with_qspi};
ghost use Rattle.qsm.specs.model.Word.{peek};
ghost use Rattle.qsm.specs.model.Lanes.{halves};
ghost use Rattle.qsm.specs.model.Access.{fetched};
ghost use Rattle.qsm.specs.model.Serial.{serial_read};
ghost use Rattle.qsm.specs.model.Queue.{queue_read};
ghost use Rattle.qsm.specs.model.Event.{read_value, read_decided, reads};

use crate::access::next;
use crate::decision::{Decision, permits, refusal_of};
use crate::event::Done;
use crate::lanes::{lane, touches, upper_lane};
use crate::map::{Place, decode};
use crate::queue::peek_queue;
use crate::serial::peek_serial;
use crate::state::Module;
use qspi::spsr::Spsr;
use sci::flags::Flags;
use sci::status::Status;

fn status_seen(s: Status, status: bool) -> Status
    ensures { result ≡ cond status (mark_seen s) s }
{
    if status { s.mark_seen() } else { s }
}

fn data_taken(s: Status, low: bool) -> Status
    ensures { result ≡ cond low (fall_seen s receive_flags) s }
{
    if low { s.fall_seen(Flags::RECEIVE) } else { s }
}

fn spsr_seen(s: Spsr, status: bool) -> Spsr
    ensures { result ≡ cond status (flags_seen s) s }
{
    if status { s.flags_seen() } else { s }
}

impl Module {
    // A word, by its place: `peek`, written out for each word of an access.
    fn first_word(self, p: Place) -> u16
        ensures { result ≡ peek self p }
    {
        let sci = self.sci;
        let qspi = self.qspi;
        match p {
            Place::Own(w) => self.peek_own(w),
            Place::Serial(w) => peek_serial(sci, w),
            Place::Queue(w) => peek_queue(qspi, w),
            Place::Hole => 0,
        }
    }

    fn second_word(self, p: Place) -> u16
        ensures { result ≡ peek self p }
    {
        let sci = self.sci;
        let qspi = self.qspi;
        match p {
            Place::Own(w) => self.peek_own(w),
            Place::Serial(w) => peek_serial(sci, w),
            Place::Queue(w) => peek_queue(qspi, w),
            Place::Hole => 0,
        }
    }

    // The words of an access, the first uppermost.
    fn words(self, width: u8, offset: u16) -> u32
        ensures { result ≡ fetched self offset (halves width) }
    {
        let first = self.first_word(decode(offset as u32));
        if width == 4 {
            let second = self.second_word(decode(next(offset) as u32));
            (first as u32) % 0x10000 * 0x10000 + (second as u32)
        } else {
            first as u32
        }
    }

    // What a read gives, where it is permitted; else 0.
    // Ruled out: a value for a blocked user; a long's first word alone.
    fn value_if(self, permitted: bool, width: u8, offset: u16) -> u32
        ensures { result ≡ cond permitted (read_value self width offset) 0 }
    {
        if permitted {
            lane(width, upper_lane(width, offset), self.words(width, offset))
        } else {
            0
        }
    }

    // What a read leaves that touches SCSR, SCDR's low byte or SPSR: no other field changes.
    // Ruled out: RDRF left set after a read of both; a read of SPSR that makes SCSR seen.
    fn flags_seen(mut self, status: bool, low: bool, queue: bool) -> Module
        ensures { result ≡ with_qspi (with_sci self (serial_read status low self.sci)) (queue_read queue self.qspi) }
    {
        let mut sci = self.sci;
        let mut qspi = self.qspi;
        let flags = sci.status;
        let spsr = qspi.spsr;
        sci.status = data_taken(status_seen(flags, status), low);
        qspi.spsr = spsr_seen(spsr, queue);
        self.sci = sci;
        self.qspi = qspi;
        self
    }

    fn polled(self, d: Decision, width: u8, offset: u16) -> Done
        ensures { result ≡ read_decided d self width offset }
    {
        let permitted = permits(d);
        let value = self.value_if(permitted, width, offset);
        let state = self.flags_seen(
            permitted & touches(0x0C, 2, width, offset),
            permitted & touches(0x0F, 1, width, offset),
            permitted & touches(0x1F, 1, width, offset),
        );
        state.done(refusal_of(d), value)
    }

    pub(crate) fn polls(self, supervisor: bool, width: u8, offset: u16) -> Done
        ensures { result ≡ reads self supervisor width offset }
    {
        let decided = self.decide_read(supervisor, width, offset);
        self.polled(decided, width, offset)
    }
}
