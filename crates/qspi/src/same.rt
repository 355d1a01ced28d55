// Whether two states of the queue are one.
ghost use Rattle.std.specs.Prelude.{◌≡◌};
ghost use Rattle.std.specs.Bool.{Decides};

use crate::Qspi;

impl Qspi {
    // Ruled out: two words of the RAM left out; the count to the next edge left out.
    pub fn same(self, other: Qspi) -> bool
        ensures { Decides result (self ≡ other) }
    {
        self == other
    }
}
