// Document 02, L14: the account of frames since the last reset.
ghost use Rattle.std.specs.Prelude.{◌≡◌};
ghost use Rattle.sci.specs.model.Account.{more, counting};

use crate::receiver::Outcome;

#[repr(C)]
#[derive(Clone, Copy)]
pub struct Account {
    // Frames taken, the lost ones with them.
    pub taken: u32,
    pub lost: u32,
}

// A count stays at the largest number.
fn more(counts: bool, n: u32) -> u32
    ensures { result ≡ more counts n }
{
    if counts { n.saturating_add(1) } else { n }
}

impl Account {
    // The account after a sample.
    // Ruled out: a lost frame left out of those taken; a count that wraps.
    pub fn counting(self, o: Outcome) -> Account
        ensures { result ≡ counting self o }
    {
        Account {
            taken: more(o.taken, self.taken),
            lost: more(o.lost, self.lost),
        }
    }
}
