// Each event as a call of its own by value, with plain parameters; and the entry in place.
ghost use Rattle.std.specs.Prelude.{◌≡◌};
ghost use Rattle.drivers.specs.State.{driver_of};
ghost use Rattle.drivers.specs.Event.{step};
ghost use Rattle.drivers.specs.Host.{Applied, host_read, host_write, driver_read, driver_write};
ghost use Rattle.drivers.specs.declared.event.Event.TheVariants.{Reset, Hold, Claim, Release};

use crate::event::{Event, Stepped, step};
use crate::state::{Driver, Shared};
use qsm::event::{Access, Answer};

// An event on the shared module, in place.
// Ruled out: the state kept as it was; the answer of the event before.
pub fn apply(d: &mut Shared, e: Event) -> Answer
    ensures { Applied d.old e d.new result }
{
    let s = *d;
    let r = step(s, e);
    *d = r.state;
    r.answer
}

// Ruled out: a later reset that changes s; a claim that outlives a reset.
pub fn reset(d: Shared, split: u8) -> Stepped
    ensures { result ≡ step d (Reset split) }
{
    step(d, Event::Reset(split))
}

// Ruled out: a hold refused before the first reset; only its first clock played.
pub fn hold(d: Shared, pins: u8, rxd: bool, clocks: u32) -> Stepped
    ensures { result ≡ step d (Hold pins rxd clocks) }
{
    step(d, Event::Hold(pins, rxd, clocks))
}

// Ruled out: the host's read refused 9; one that is always a supervisor's.
pub fn host_read(d: Shared, supervisor: bool, width: u8, offset: u16) -> Stepped
    ensures { result ≡ step d (host_read supervisor width offset) }
{
    step(d, Event::Access(Access::Read(supervisor, width, offset)))
}

// Ruled out: the host's write refused 9; one that is answered and not stored.
pub fn host_write(d: Shared, supervisor: bool, width: u8, offset: u16, value: u32) -> Stepped
    ensures { result ≡ step d (host_write supervisor width offset value) }
{
    step(
        d,
        Event::Access(Access::Write(supervisor, width, offset, value)),
    )
}

// Ruled out: a foreign entry's receive word read; SPSR read without the claim.
pub fn read(d: Shared, spindle: bool, supervisor: bool, width: u8, offset: u16) -> Stepped
    ensures { result ≡ step d (driver_read spindle supervisor width offset) }
{
    step(
        d,
        Event::Drive(
            Driver::from(spindle),
            Access::Read(supervisor, width, offset),
        ),
    )
}

// Ruled out: SPE set with a foreign ENDQP; a byte of SPCR2 written while SPE is set.
pub fn write(
    d: Shared,
    spindle: bool,
    supervisor: bool,
    width: u8,
    offset: u16,
    value: u32,
) -> Stepped
    ensures { result ≡ step d (driver_write spindle supervisor width offset value) }
{
    step(
        d,
        Event::Drive(
            Driver::from(spindle),
            Access::Write(supervisor, width, offset, value),
        ),
    )
}

// Ruled out: a claim taken from the other driver; a second claim refused.
pub fn claim(d: Shared, spindle: bool) -> Stepped
    ensures { result ≡ step d (Claim (driver_of spindle)) }
{
    step(d, Event::Claim(Driver::from(spindle)))
}

// Ruled out: a release by the other driver; a release with SPE set.
pub fn release(d: Shared, spindle: bool) -> Stepped
    ensures { result ≡ step d (Release (driver_of spindle)) }
{
    step(d, Event::Release(Driver::from(spindle)))
}
