// Document 02, L6: what is shown of editions by the calls that were made, and by a buffer's bytes.
#![tactic(auto)]

ghost use Rattle.std.specs.Prelude.{◌≡◌, true};
ghost use Rattle.claims_editions.specs.Claims.{Claims};

// Nothing to compute: the contract is the record of the laws, so that none of them can be left out unnoticed.
pub fn shown() -> bool
    ensures { (result ≡ true) × Claims }
{
    true
}
