// All that is shown of the bytes of an answer.
ghost use Rattle.std.specs.Prelude.{◌≡◌, true};
ghost use Rattle.answers.specs.Claims.{Claims};

// Nothing to compute: the contract is the record of the laws, so that none of them can be left out unnoticed.
fn shown() -> bool
    ensures { (result ≡ true) × Claims }
{
    true
}
