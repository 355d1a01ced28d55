// All that is claimed of it.
ghost use Rattle.std.specs.Prelude.{◌≡◌, true};
ghost use Rattle.until_change.specs.Claims.{Claims};

// Nothing to compute: the contract is the record of the claims, so that none of them can be left out unnoticed.
fn shown() -> bool
    ensures { (result ≡ true) × Claims }
{
    true
}
