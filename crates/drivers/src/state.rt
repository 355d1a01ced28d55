// The state that two drivers share, and who owns which entries of the queue.
ghost use Rattle.std.specs.Prelude.{◌≡◌};
ghost use Rattle.drivers.specs.State.{new_shared, other, number_of, driver_of, holds, proper, begun, owns};

use qsm::state::Module;

// The two drivers of the queue.
#[derive(Clone, Copy)]
pub enum Driver {
    Axis,
    Spindle,
}

// The module; the first entry of the spindle driver, 0 before the first reset; and who holds the claim: 1 the axis driver, 2 the spindle
// driver, 0 nobody.
#[repr(C)]
#[derive(Clone, Copy)]
pub struct Shared {
    pub qsm: Module,
    pub split: u8,
    pub holder: u8,
}

// Ruled out: the driver itself; the axis driver for both.
pub fn other(who: Driver) -> Driver
    ensures { result ≡ other who }
{
    match who {
        Driver::Axis => Driver::Spindle,
        Driver::Spindle => Driver::Axis,
    }
}

// Ruled out: 0 for a driver; one number for both.
impl From<Driver> for u8 {
    ghost from_gives = { λ who number. number ≡ number_of who };

    fn from(who: Driver) -> u8 {
        match who {
            Driver::Axis => 1,
            Driver::Spindle => 2,
        }
    }
}

// For a host in C: which driver calls.
// Ruled out: the axis driver for both; the drivers exchanged.
impl From<bool> for Driver {
    ghost from_gives = { λ spindle who. who ≡ driver_of spindle };

    fn from(spindle: bool) -> Driver {
        if spindle {
            Driver::Spindle
        } else {
            Driver::Axis
        }
    }
}

// s from 1 to 15.
// Ruled out: 0, an axis driver with no entry; 16, a spindle driver with none.
pub fn proper(split: u8) -> bool
    ensures { result ≡ proper split }
{
    (1 <= split) & (split <= 15)
}

// Ruled out: entry s for the axis driver; every entry for both.
pub fn owns(split: u8, who: Driver, entry: u16) -> bool
    ensures { result ≡ owns split who entry }
{
    match who {
        Driver::Axis => entry < (split as u16),
        Driver::Spindle => ((split as u16) <= entry) & (entry <= 15),
    }
}

impl Shared {
    // A module fresh from reset, before the first reset that fixes s.
    // Ruled out: a split that is fixed already; a claim that somebody holds.
    pub fn new() -> Shared
        ensures { result ≡ new_shared }
    {
        Shared {
            qsm: Module::reset(),
            split: 0,
            holder: 0,
        }
    }

    // Ruled out: the other driver's claim; a claim of nobody.
    pub fn holds(self, who: Driver) -> bool
        ensures { result ≡ holds self who }
    {
        self.holder == u8::from(who)
    }

    // The first reset has been.
    // Ruled out: any number but 0 taken for s; the claim asked.
    pub fn begun(self) -> bool
        ensures { result ≡ begun self }
    {
        proper(self.split)
    }
}
