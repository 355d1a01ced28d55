// All that is shown of a record looked for.
ghost use Rattle.std.specs.Prelude.{◌≡◌, true};
ghost use Rattle.cmd_find.specs.Laws.{Claims};

// Nothing to compute: the contract is the record of the laws, so that none of them can be left out unnoticed.
fn shown() -> bool
    ensures { (result ≡ true) × Claims }
{
    true
}
