// Document 02, L12: what is shown of a verdict on a log, in the numbers of the papers.
#![tactic(auto)]

ghost use Rattle.std.specs.Prelude.{◌≡◌, true};
ghost use Rattle.claims_judging.specs.Claims.{Claims};

// Nothing to compute: the contract is the record of the laws, so that none of them can be left out unnoticed.
pub fn shown() -> bool
    ensures { (result ≡ true) × Claims }
{
    true
}
