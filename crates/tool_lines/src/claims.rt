// All that is shown of the calls.
ghost use Rattle.std.specs.Prelude.{◌≡◌, true};
ghost use Rattle.tool_lines.specs.Claims.{Claims};

// Nothing to compute: the contract is the record of the laws, so that none of them can be left out unnoticed.
// Ruled out: a line told twice, or left out between two calls; a stop before the last line; a line lost at a piece's end.
pub fn shown() -> bool
    ensures { (result ≡ true) × Claims }
{
    true
}
