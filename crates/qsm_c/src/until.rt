// For a host that sleeps until something changes.
ghost use Rattle.std.specs.Prelude.{◌≡◌};
ghost use Rattle.until_change.specs.Change.{number, until_change};

use qsm::state::Module;

// The least number of clocks at these levels after which an answer would show other pins or another request than one now; 0 where it never
// will.
// Ruled out: a clock late; 0 for a change that comes with the first clock.
#[unsafe(no_mangle)]
pub extern "C" fn qsm_until_change(m: Module, pins: u8, rxd: bool) -> u64
    ensures { result ≡ number (until_change m pins rxd) }
{
    until_change::until_change(m, pins, rxd).unwrap_or(0)
}
