// A turn of the replay: the hold under way up to the next poll, or the next record.
ghost use Rattle.std.specs.Prelude.{◌≡◌, ◌+◌, ◌^◌, ◌<◌};
ghost use Rattle.std.specs.Int.NonZero.{non_zero_u16_get};
ghost use Rattle.tool_lines.specs.Schedule.{reaches};
ghost use Rattle.tool_lines.specs.Call.{stop_at, turned, moved_to, held_for, gathered, poll_now, hold_on, restarted, accessed, event_on, event_or_stop, size_of, record_on, turn};

use crate::line::{Gathered, Outcome};
use crate::noise::Noises;
use crate::poll::{Polled, poll};
use crate::stop::Stop;
use crate::{Lines, Turned};
use qsm::decision::{fits, shaped};
use qsm::event::{Access, Event};
use qsm::lanes::{in_map, touches};
use qsm::state::Module;
use std::num::NonZeroU16;
use trace::Parsed;

// An access that passes 1 and 2 and touches SCSR or SCDR.
fn reaches(a: Access) -> bool
    ensures { result ≡ reaches a }
{
    match a {
        Access::Read(_, width, offset) => {
            shaped(width, offset) & in_map(width, offset) & touches(0x0C, 4, width, offset)
        }
        Access::Write(_, width, offset, value) => {
            shaped(width, offset)
                & fits(width, value)
                & in_map(width, offset)
                & touches(0x0C, 4, width, offset)
        }
    }
}

// Why an event stops the replay, before it.
fn stop_at(device: Module, e: Event) -> Option<Stop>
    ensures { result ≡ stop_at device.clock e }
{
    match e {
        Event::Hold(_, _, n) if device.passes(n) => Some(Stop::ClockLimit),
        Event::Access(a) if reaches(a) => Some(Stop::Access),
        _ => None,
    }
}

impl Lines {
    // Ruled out: another outcome; a state that has moved.
    pub fn turned(self, outcome: Outcome) -> Turned
        ensures { result ≡ turned self outcome }
    {
        Turned {
            state: self,
            outcome,
        }
    }

    fn moved_to(mut self, at: usize) -> Lines
        ensures { result ≡ moved_to self at }
    {
        self.at = at;
        self
    }

    fn held_for(mut self, pins: u8, rxd: bool, n: u32, left: u32, since: u16) -> Lines
        ensures { result ≡ held_for self pins rxd n left since }
    {
        let device = self.device;
        let s = qsm::event::step(device, Event::Hold(pins, rxd, n));
        let after = s.state;
        self.device = after;
        self.left = left;
        self.pins = pins;
        self.rxd = rxd;
        self.since = since;
        self
    }

    fn gathered(mut self, p: Polled, g: Gathered, noise: Noises) -> Turned
        ensures { result ≡ gathered self p g noise }
    {
        let device = p.state;
        let line = g.line;
        let outcome = g.outcome;
        self.device = device;
        self.line = line;
        self.noise = noise;
        Turned {
            state: self,
            outcome,
        }
    }

    fn poll_now(self) -> Turned
        ensures { result ≡ poll_now self }
    {
        let device = self.device;
        let line = self.line;
        let noise = self.noise;
        let p = poll(device);
        let g = line.shown(p.status, p.word);
        let n = noise.heard(p.status, p.word, device.noise());
        self.gathered(p, g, n)
    }

    // A hold of n clocks, or as much of it as comes before the next poll, and then the poll.
    #[tactic(auto, unfolding(crate::specs::Call::hold_on))]
    fn hold_on(self, period: NonZeroU16, pins: u8, rxd: bool, n: u32) -> Turned
        ensures { result ≡ hold_on (non_zero_u16_get period) self pins rxd n }
    {
        let clocks = period.get();
        let since = self.since % clocks;
        let due = u32::from(clocks - since);
        if n < due {
            self.held_for(pins, rxd, n, 0, since + (n as u16))
                .turned(Outcome::Nothing)
        } else {
            self.held_for(pins, rxd, due, n - due, 0).poll_now()
        }
    }

    fn restarted(mut self) -> Lines
        ensures { result ≡ restarted self }
    {
        let line = self.line;
        let noise = self.noise;
        let fresh = Module::reset();
        let next = line.forgotten();
        let none = noise.unheard();
        self.device = fresh;
        self.since = 0;
        self.line = next;
        self.noise = none;
        self
    }

    fn accessed(mut self, a: Access) -> Lines
        ensures { result ≡ accessed self a }
    {
        let device = self.device;
        let s = qsm::event::step(device, Event::Access(a));
        let after = s.state;
        self.device = after;
        self
    }

    #[tactic(auto, unfolding(crate::specs::Call::event_on))]
    fn event_on(self, period: NonZeroU16, e: Event) -> Turned
        ensures { result ≡ event_on (non_zero_u16_get period) self e }
    {
        match e {
            Event::Reset => self.restarted().turned(Outcome::Nothing),
            Event::Hold(pins, rxd, n) => self.hold_on(period, pins, rxd, n),
            Event::Access(a) => self.accessed(a).turned(Outcome::Nothing),
        }
    }

    // An event whose record has so many bytes, unless it stops the replay.
    fn event_or_stop(self, period: NonZeroU16, e: Event, n: usize, why: Option<Stop>) -> Turned
        requires { self.at + n < 2 ^ 64 }
        ensures { result ≡ event_or_stop (non_zero_u16_get period) self e n why }
    {
        match why {
            Some(why) => self.turned(Outcome::Stopped(why)),
            None => self.moved_to(self.at + n).event_on(period, e),
        }
    }

    fn record_on(self, period: NonZeroU16, p: Parsed) -> Turned
        requires { self.at + size_of p < 2 ^ 64 }
        ensures { result ≡ record_on (non_zero_u16_get period) self p }
    {
        match p {
            Parsed::Record(e, n) => {
                let device = self.device;
                self.event_or_stop(period, e, n, stop_at(device, e))
            }
            Parsed::Unknown => self.turned(Outcome::Stopped(Stop::UnknownKind)),
            Parsed::Cut => self.turned(Outcome::Stopped(Stop::CutRecord)),
        }
    }

    // Ruled out: a poll a clock late; a record played before the hold under way has ended.
    pub(crate) fn turn(self, trace: &[u8], period: NonZeroU16) -> Turned
        ensures { result ≡ turn (non_zero_u16_get period) trace.now self }
    {
        if self.left != 0 {
            let device = self.device;
            let e = Event::Hold(self.pins, self.rxd, self.left);
            return self.event_or_stop(period, e, 0, stop_at(device, e));
        }
        let at = self.at;
        if trace.len() <= at {
            return self.turned(Outcome::Ended);
        }
        let p = trace::parse(&trace[at..]);
        self.record_on(period, p)
    }
}
