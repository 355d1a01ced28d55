// What is shown of holds: however its clocks are cut into holds, the same module is left; and what is shown of the count of clocks.
ghost use Rattle.std.specs.Prelude.{◌≡◌, true};
ghost use Rattle.qsm.specs.claims.Holds.{HeldInParts};
ghost use Rattle.qsm.specs.claims.Count.{Counting};

// Nothing to compute: the contract is the record of the laws, so that none of them can be left out unnoticed.
fn held_in_parts() -> bool
    ensures { (result ≡ true) × HeldInParts }
{
    true
}

// The same for document 02, L9.
fn counting() -> bool
    ensures { (result ≡ true) × Counting }
{
    true
}
