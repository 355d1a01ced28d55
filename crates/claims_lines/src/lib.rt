// Document 02, L8: a line handed over is what came on the wire.
#![tactic(auto)]

ghost use Rattle.std.specs.Prelude.{true, ◌≡◌};
ghost use Rattle.claims_lines.specs.Claims.{Claims};
ghost use Rattle.claims_lines.specs.Witness.{Met};
ghost use Rattle.claims_lines.specs.Quick.{Quick};

// For every trace and every period of polls: each line handed over is what came on the wire, whole and undamaged; each that ended is reported
// once, in the order of its number, a dropped one with its first cause; and a whole one whose 0A is delivered is handed over.
// And one trace with a quick and with a slow poll: a line handed over, and one dropped.
// Ruled out: a line with a character lost or damaged handed over; two lines joined; a line told twice or left out; a whole line dropped.
pub fn provenance() -> bool
    ensures { (result ≡ true) × Claims × Met }
{
    true
}

// A replay that loses no frame drops no line for OR; and with a period that the rule of polls allows it loses none while SCCR0 and SCCR1 stay.
// Ruled out: a line dropped for OR where no frame was lost; a first poll that comes later than a period after the last.
pub fn quick() -> bool
    ensures { (result ≡ true) × Quick }
{
    true
}
