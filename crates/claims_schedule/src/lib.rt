// Document 02, L8: what is shown of where the polls of a replay fall, what stops it, and what a call is refused for.
#![tactic(auto)]

ghost use Rattle.std.specs.Prelude.{◌≡◌, true};
ghost use Rattle.claims_schedule.specs.Claims.{Claims};

// Nothing to compute: the contract is the record of the laws, so that none of them can be left out unnoticed.
pub fn shown() -> bool
    ensures { (result ≡ true) × Claims }
{
    true
}
