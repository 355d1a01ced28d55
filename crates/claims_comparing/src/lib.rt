// Document 02, L2 and L9: what is shown of comparing two logs, in the numbers of the papers.
#![tactic(auto)]

ghost use Rattle.std.specs.Prelude.{◌≡◌, true};
ghost use Rattle.claims_comparing.specs.Claims.{Claims};

// Nothing to compute: the contract is the record of the laws, so that none of them can be left out unnoticed.
pub fn shown() -> bool
    ensures { (result ≡ true) × Claims }
{
    true
}
