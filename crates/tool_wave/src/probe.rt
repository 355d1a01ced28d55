// The module with its lines, clock by clock.
ghost use Rattle.std.specs.Prelude.{◌≡◌, ◌+◌, ◌≤◌, ltb};
ghost use Rattle.qspi.specs.model.Outputs.{enabled};
ghost use Rattle.qsm.specs.model.Event.{clock_limit};
ghost use Rattle.tool_wave.specs.Probe.{started, view_of, ends, tick, restarted, taken, accessed, limited, before, calm, ahead};

use crate::view::{Kept, View};
use qsm::event::{Access, Event};
use qsm::state::Module;
use until_change::{room, shown, until_change, wires, within};

// The clocks since the start of the trace, which a reset leaves; whether a record has been played, and a hold; RXD as the last hold gave it;
// what the clock of a last edge keeps; and the module.
#[derive(Clone, Copy)]
pub struct Probe {
    pub clock: u64,
    pub known: bool,
    pub given: bool,
    pub rxd: bool,
    pub kept: Kept,
    pub device: Module,
}

// What an access leaves, and its refusal or 0.
#[derive(Clone, Copy)]
pub struct Accessed {
    pub probe: Probe,
    pub refusal: u8,
}

// SPE falls from m to the clock after it, by the queue's last edge and not by a mode fault.
fn ends(m: Module, after: Module) -> bool
    ensures { result ≡ ends m after }
{
    let q = m.qspi;
    let r = after.qspi;
    q.enabled() & !q.fault_now(wires(m)) & !r.enabled()
}

// The clocks before a change; all of them, where none comes.
fn before(n: u64) -> u32
    ensures { result ≡ before n }
{
    if n == 0 {
        4294967295
    } else {
        within(n - 1, 4294967295)
    }
}

// Whether so many clocks more would pass 2^64 - 1.
fn passes(clock: u64, n: u32) -> bool
    ensures { result ≡ ltb clock_limit (clock + n) }
{
    0xFFFFFFFFFFFFFFFF - (n as u64) < clock
}

impl Probe {
    // Ruled out: a level that nobody gave; a module that is not fresh from reset.
    pub fn start() -> Probe
        ensures { result ≡ started }
    {
        Probe {
            clock: 0,
            known: false,
            given: false,
            rxd: false,
            kept: Kept::none(),
            device: Module::reset(),
        }
    }

    // What is drawn of it.
    // Ruled out: the pins let go within the clock of a last edge; an input for an output.
    pub fn view(self) -> View
        ensures { result ≡ view_of self }
    {
        let device = self.device;
        let kept = self.kept;
        View {
            known: self.known,
            given: self.given,
            rxd: self.rxd,
            inputs: device.inputs,
            look: kept.over(shown(device)),
        }
    }

    // Ruled out: time turned back; RXD forgotten.
    pub fn restarted(mut self) -> Probe
        ensures { result ≡ restarted self }
    {
        let fresh = Module::reset();
        self.device = fresh;
        self.known = true;
        self
    }

    // Ruled out: levels taken at the end of a hold; pins for RXD.
    pub fn taken(mut self, pins: u8, rxd: bool) -> Probe
        ensures { result ≡ taken self pins rxd }
    {
        let mut device = self.device;
        device.inputs = pins;
        self.device = device;
        self.rxd = rxd;
        self.given = true;
        self.known = true;
        self
    }

    // Ruled out: a refusal passed over; time moved by an access.
    pub fn accessed(mut self, a: Access) -> Accessed
        ensures { result ≡ accessed self a }
    {
        let device = self.device;
        let s = qsm::event::step(device, Event::Access(a));
        let after = s.state;
        let answer = s.answer;
        self.device = after;
        self.known = true;
        Accessed {
            probe: self,
            refusal: answer.refusal,
        }
    }

    // Ruled out: the clocks since reset alone; a hold of the last clock there is refused.
    pub fn limited(self, n: u32) -> bool
        ensures { result ≡ limited self n }
    {
        let device = self.device;
        passes(device.clock, n) | passes(self.clock, n)
    }

    // So many clocks in which nothing that is drawn changes.
    pub(crate) fn ahead(mut self, n: u32) -> Probe
        requires { self.clock + n ≤ clock_limit }
        ensures { result ≡ ahead self n }
    {
        if n == 0 {
            return self;
        }
        let device = self.device;
        let s = qsm::event::hold(device, device.inputs, self.rxd, n);
        let after = s.state;
        let none = Kept::none();
        self.device = after;
        self.clock += n as u64;
        self.kept = none;
        self
    }

    // One clock.
    pub(crate) fn tick(self) -> Probe
        requires { (self.clock + 1 ≤ clock_limit) × (self.device.clock + 1 ≤ clock_limit) }
        ensures { result ≡ tick self }
    {
        let device = self.device;
        let mut next = self.ahead(1);
        let after = next.device;
        let kept = Kept::edge(ends(device, after), shown(device));
        next.kept = kept;
        next
    }

    // So many clocks, at the levels given, leave what is drawn: none while an edge is kept.
    // Ruled out: the clock of a change with them; a queue's last edge among them.
    pub fn calm(self) -> u32
        ensures { result ≡ calm self }
    {
        let kept = self.kept;
        let device = self.device;
        let q = device.qspi;
        if kept.on {
            return 0;
        }
        let n = until_change(device, device.inputs, self.rxd).unwrap_or(0);
        within(room(device.clock), before(n).min(q.quiet(wires(device))))
    }
}
