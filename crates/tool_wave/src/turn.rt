// A turn: the hold under way up to its next change or its end, or the next record.
ghost use Rattle.std.specs.Prelude.{◌≡◌, false, ◌+◌, ◌^◌, ◌<◌};
ghost use Rattle.tool_wave.specs.Probe.{limited, ahead};
ghost use Rattle.tool_wave.specs.Turn.{turned, told, moved, stop_at, event_on, event_or_stop, size_of, record_on, hold_for, hold_on, turn};

use crate::probe::Probe;
use crate::{Step, Stop, Turned, Waves};
use qsm::event::Event;
use trace::Parsed;

// The change from one probe to the next, with an access's refusal; nothing where all is drawn as before and nothing was refused.
fn told(from: Probe, to: Probe, refusal: u8) -> Option<Step>
    ensures { result ≡ told from to refusal }
{
    let before = from.view();
    let after = to.view();
    if before == after && refusal == 0 {
        return None;
    }
    Some(Step {
        clock: to.clock,
        before,
        after,
        refusal,
    })
}

// Why an event stops the trace, before it.
fn stop_at(p: Probe, e: Event) -> Option<Stop>
    ensures { result ≡ stop_at p e }
{
    match e {
        Event::Hold(_, _, n) if p.limited(n) => Some(Stop::ClockLimit),
        _ => None,
    }
}

fn moved(at: usize, left: u32, from: Probe, to: Probe, refusal: u8) -> Turned
    ensures { result ≡ moved at left from to refusal }
{
    let outcome = Ok(told(from, to, refusal));
    let state = Waves {
        at,
        left,
        probe: to,
    };
    Turned { state, outcome }
}

impl Waves {
    fn turned(self, outcome: Result<Option<Step>, Stop>) -> Turned
        ensures { result ≡ turned self outcome }
    {
        Turned {
            state: self,
            outcome,
        }
    }

    // An event whose record ends at a place; of a hold, its levels.
    #[tactic(auto, unfolding(crate::specs::Turn::event_on))]
    fn event_on(self, at: usize, e: Event) -> Turned
        ensures { result ≡ event_on self at e }
    {
        let p = self.probe;
        match e {
            Event::Reset => moved(at, 0, p, p.restarted(), 0),
            Event::Hold(pins, rxd, n) => moved(at, n, p, p.taken(pins, rxd), 0),
            Event::Access(a) => {
                let r = p.accessed(a);
                let q = r.probe;
                moved(at, 0, p, q, r.refusal)
            }
        }
    }

    fn event_or_stop(self, e: Event, n: usize, why: Option<Stop>) -> Turned
        requires { self.at + n < 2 ^ 64 }
        ensures { result ≡ event_or_stop self e n why }
    {
        match why {
            Some(why) => self.turned(Err(why)),
            None => self.event_on(self.at + n, e),
        }
    }

    fn record_on(self, p: Parsed) -> Turned
        requires { self.at + size_of p < 2 ^ 64 }
        ensures { result ≡ record_on self p }
    {
        match p {
            Parsed::Record(e, n) => {
                let probe = self.probe;
                self.event_or_stop(e, n, stop_at(probe, e))
            }
            Parsed::Unknown => self.turned(Err(Stop::UnknownKind)),
            Parsed::Cut => self.turned(Err(Stop::CutRecord)),
        }
    }

    // All the clocks that are left, none of which changes what is drawn.
    fn hold_out(self) -> Waves
        requires { limited self.probe self.left ≡ false }
        ensures { result ≡ record { at = self.at; left = 0; probe = ahead self.probe self.left } }
    {
        let p = self.probe;
        let probe = p.ahead(self.left);
        Waves {
            at: self.at,
            left: 0,
            probe,
        }
    }

    // So many clocks are calm: all that are left, or else the next may change something.
    fn hold_for(self, calm: u32) -> Turned
        requires { limited self.probe self.left ≡ false }
        ensures { result ≡ hold_for self calm }
    {
        let p = self.probe;
        let left = self.left;
        if left <= calm {
            return self.hold_out().turned(Ok(None));
        }
        let q = p.ahead(calm);
        moved(self.at, left - calm - 1, q, q.tick(), 0)
    }

    fn hold_on(self) -> Turned
        ensures { result ≡ hold_on self }
    {
        let p = self.probe;
        if p.limited(self.left) {
            return self.turned(Err(Stop::ClockLimit));
        }
        self.hold_for(p.calm())
    }

    // Ruled out: a change a clock late; a record played before the hold under way has ended.
    pub(crate) fn turn(self, trace: &[u8]) -> Turned
        ensures { result ≡ turn trace.now self }
    {
        if self.left != 0 {
            return self.hold_on();
        }
        let at = self.at;
        if trace.len() <= at {
            return self.turned(Err(Stop::End));
        }
        let p = trace::parse(&trace[at..]);
        self.record_on(p)
    }
}
