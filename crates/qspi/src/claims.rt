// All that is shown of the definitions: the laws of an entry and of a queue, the clauses on writes and flags, and K7 to K10.
ghost use Rattle.std.specs.Prelude.{◌≡◌, true};
ghost use Rattle.qspi.specs.claims.Claims.{Claims};

// Nothing to compute: the contract is the record of the laws, so that none of them can be left out unnoticed.
fn shown() -> bool
    ensures { (result ≡ true) × Claims }
{
    true
}
