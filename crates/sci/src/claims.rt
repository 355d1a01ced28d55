// All that is claimed of the definitions.
ghost use Rattle.std.specs.Prelude.{◌≡◌, true};
ghost use Rattle.sci.specs.claims.Claims.{Claims};

// Nothing to compute: the contract is the record of the claims, so that none of them can be left out unnoticed.
// Ruled out: RAF left set by an abandoned start; OR that asks for nothing without RDRF; bits sent highest first; a receiver that keeps a trace
// of its past, that delivers past an unseen loss, or that takes one frame and no more; the stop bit left out of the noise figure; a move in
// the stop bit; a frame slept through counted.
fn shown() -> bool
    ensures { (result ≡ true) × Claims }
{
    true
}
