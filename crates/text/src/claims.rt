// What is shown of the texts.
ghost use Rattle.text.specs.Claims.{Claims};

// Nothing to compute: the contract is the record of the laws, so that none of them can be left out unnoticed.
fn shown() -> bool
    ensures { Claims }
{
    true
}
