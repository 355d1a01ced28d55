// What is shown of the definitions of pins, requests, seen flags and registers: document 01's sentences.
ghost use Rattle.std.specs.Prelude.{◌≡◌, true};
ghost use Rattle.qsm.specs.claims.Claims.{Claims};

// Nothing to compute: the contract is the record of the laws, so that none of them can be left out unnoticed.
fn shown() -> bool
    ensures { (result ≡ true) × Claims }
{
    true
}
