// The C boundary of a module that two drivers share (02, L11), which the host keeps behind a pointer.
ghost use Rattle.std.specs.Prelude.{◌≡◌};
ghost use Rattle.drivers.specs.State.{new_shared, driver_of};
ghost use Rattle.drivers.specs.Host.{Applied, host_read, host_write, driver_read, driver_write};
ghost use Rattle.drivers.specs.declared.event.Event.TheVariants.{Reset, Hold, Claim, Release};

use drivers::state::Shared;
use qsm::event::Answer;

// A module after a reset, before the first reset that fixes s.
// Ruled out: a split that is fixed already; a claim that somebody holds.
#[unsafe(no_mangle)]
pub extern "C" fn qsm_drivers_new() -> Shared
    ensures { result ≡ new_shared }
{
    Shared::new()
}

// Ruled out: a later reset that changes s; a claim that outlives a reset.
#[unsafe(no_mangle)]
pub extern "C" fn qsm_drivers_reset(d: &mut Shared, split: u8) -> Answer
    ensures { Applied d.old (Reset split) d.new result }
{
    let s = *d;
    let r = drivers::calls::reset(s, split);
    *d = r.state;
    r.answer
}

// Ruled out: a hold refused before the first reset; only its first clock played.
#[unsafe(no_mangle)]
pub extern "C" fn qsm_drivers_hold(d: &mut Shared, pins: u8, rxd: bool, clocks: u32) -> Answer
    ensures { Applied d.old (Hold pins rxd clocks) d.new result }
{
    let s = *d;
    let r = drivers::calls::hold(s, pins, rxd, clocks);
    *d = r.state;
    r.answer
}

// Ruled out: the host's read refused 9; one that is always a supervisor's.
#[unsafe(no_mangle)]
pub extern "C" fn qsm_drivers_host_read(
    d: &mut Shared,
    supervisor: bool,
    width: u8,
    offset: u16,
) -> Answer
    ensures { Applied d.old (host_read supervisor width offset) d.new result }
{
    let s = *d;
    let r = drivers::calls::host_read(s, supervisor, width, offset);
    *d = r.state;
    r.answer
}

// Ruled out: the host's write refused 9; one that is answered and not stored.
#[unsafe(no_mangle)]
pub extern "C" fn qsm_drivers_host_write(
    d: &mut Shared,
    supervisor: bool,
    width: u8,
    offset: u16,
    value: u32,
) -> Answer
    ensures { Applied d.old (host_write supervisor width offset value) d.new result }
{
    let s = *d;
    let r = drivers::calls::host_write(s, supervisor, width, offset, value);
    *d = r.state;
    r.answer
}

// Ruled out: a foreign entry's receive word read; SPSR read without the claim.
#[unsafe(no_mangle)]
pub extern "C" fn qsm_drivers_read(
    d: &mut Shared,
    spindle: bool,
    supervisor: bool,
    width: u8,
    offset: u16,
) -> Answer
    ensures { Applied d.old (driver_read spindle supervisor width offset) d.new result }
{
    let s = *d;
    let r = drivers::calls::read(s, spindle, supervisor, width, offset);
    *d = r.state;
    r.answer
}

// Ruled out: SPE set with a foreign ENDQP; a byte of SPCR2 written while SPE is set.
#[unsafe(no_mangle)]
pub extern "C" fn qsm_drivers_write(
    d: &mut Shared,
    spindle: bool,
    supervisor: bool,
    width: u8,
    offset: u16,
    value: u32,
) -> Answer
    ensures { Applied d.old (driver_write spindle supervisor width offset value) d.new result }
{
    let s = *d;
    let r = drivers::calls::write(s, spindle, supervisor, width, offset, value);
    *d = r.state;
    r.answer
}

// Ruled out: a claim taken from the other driver; a second claim refused.
#[unsafe(no_mangle)]
pub extern "C" fn qsm_drivers_claim(d: &mut Shared, spindle: bool) -> Answer
    ensures { Applied d.old (Claim (driver_of spindle)) d.new result }
{
    let s = *d;
    let r = drivers::calls::claim(s, spindle);
    *d = r.state;
    r.answer
}

// Ruled out: a release by the other driver; a release with SPE set.
#[unsafe(no_mangle)]
pub extern "C" fn qsm_drivers_release(d: &mut Shared, spindle: bool) -> Answer
    ensures { Applied d.old (Release (driver_of spindle)) d.new result }
{
    let s = *d;
    let r = drivers::calls::release(s, spindle);
    *d = r.state;
    r.answer
}
