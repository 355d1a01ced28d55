// How long a word may wait in SCDR, so that no frame is lost: what firmware needs that requests drive.
#![tactic(auto)]

ghost use Rattle.std.specs.Prelude.{true, ◌≡◌};
ghost use Rattle.claims_deadlines.specs.Claims.{Claims};

// For every history in which RE stays set: a word that is delivered before the next frame can end costs none, and delivered a clock later it
// can; polls at that distance are in time; and SCI asks for as long as a word waits, if RIE is set.
// Ruled out: a frame lost though each word was delivered in time; a word that waits and doesn't ask; a bound that is too short by a clock.
pub fn shown() -> bool
    ensures { (result ≡ true) × Claims }
{
    true
}
