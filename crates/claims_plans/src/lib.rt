// Document 02, L10: what is shown of accepted plans however they were loaded, and under a host that reads while they run.
#![tactic(auto)]

ghost use Rattle.std.specs.Prelude.{◌≡◌, true};
ghost use Rattle.claims_plans.specs.Claims.{Claims};

// Nothing to compute: the contract is the record of the laws, so that none of them can be left out unnoticed.
pub fn shown() -> bool
    ensures { (result ≡ true) × Claims }
{
    true
}
