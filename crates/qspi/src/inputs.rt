// What the queue reads on its pins: MISO, and PQS3 for a mode fault.
ghost use Rattle.std.specs.Prelude.{◌≡◌};
ghost use Rattle.qspi.specs.model.Queue.{miso_of, selected};

use crate::Pins;
use crate::fields::bit_0;

// MISO's level, zero unless it is assigned and an input.
// Ruled out: the level of an output; the level of a pin that is not assigned.
pub fn miso_of(pins: Pins) -> bool
    ensures { result ≡ miso_of pins }
{
    bit_0(pins.pqspar) & !bit_0(pins.ddrqs) & bit_0(pins.levels)
}

// PQS3 assigned, input and low.
// Ruled out: an output; a high level; a pin that is not assigned.
pub fn selected(pins: Pins) -> bool
    ensures { result ≡ selected pins }
{
    (pins.pqspar / 8 % 2 == 1) & !(pins.ddrqs / 8 % 2 == 1) & !(pins.levels / 8 % 2 == 1)
}
