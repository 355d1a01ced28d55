// Document 02, L14: the law of the account of characters, over every history since a reset.
#![tactic(auto)]

ghost use Rattle.std.specs.Prelude.{◌≡◌, true};
ghost use Rattle.claims_account.specs.Claims.{Claims};
ghost use Rattle.claims_account.specs.Losing.{Losing};

// The account, over every history of a module's events since its last reset; and histories that lose, sleep and wake.
// Ruled out: a frame slept through counted; a lost frame left out of those taken; a word both delivered and waiting; a second rise of OR in a
// run of losses; a count that wraps.
pub fn shown() -> bool
    ensures { (result ≡ true) × Claims × Losing }
{
    true
}
