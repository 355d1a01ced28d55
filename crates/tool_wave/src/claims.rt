// All that is shown of the turns.
ghost use Rattle.std.specs.Prelude.{◌≡◌, true};
ghost use Rattle.tool_wave.specs.Claims.{Claims};

// Nothing to compute: the contract is the record of the laws, so that none of them can be left out unnoticed.
// Ruled out: a change told twice, or left out between two turns; one told at another clock than its own.
pub fn shown() -> bool
    ensures { (result ≡ true) × Claims }
{
    true
}
