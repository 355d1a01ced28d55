// All that is shown of keeping editions.
ghost use Rattle.std.specs.Prelude.{◌≡◌, true};
ghost use Rattle.tool_editions.specs.Claims.{Claims};

// Nothing to compute: the contract is the record of the laws, so that none of them can be left out unnoticed.
fn shown() -> bool
    ensures { (result ≡ true) × Claims }
{
    true
}
