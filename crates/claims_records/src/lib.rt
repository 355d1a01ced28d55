// Each record of a trace by its own bytes, and each answer's. There is nothing to compute: the contract is the statement.
#![tactic(auto)]

ghost use Rattle.std.specs.Prelude.{◌≡◌, true};
ghost use Rattle.claims_records.specs.Records.{Claims};

// Ruled out: RXD one by its lowest bit alone; the clocks of a 02 low byte first; a supervisor by bit 6; an offset of one byte.
pub fn shown() -> bool
    ensures { (result ≡ true) × Claims }
{
    true
}
