// Set-points as the functions here go through them.
ghost use Rattle.std.specs.Prelude.{◌≤◌};

use crate::SetPoints;

// One to sixteen set-points.
#[derive(Clone, Copy)]
pub(crate) struct Points {
    pub(crate) given: SetPoints,
    ghost some: { 1 ≤ given.count },
    ghost most: { given.count ≤ 16 },
}
