// Document 01's clauses on flags and on the receiver, and document 02's L1, as laws of the definitions below: each told by what a host gets or
// by plain counts of samples, so that a definition that is wrong breaks it. There is nothing to compute: the contract is the statement.
#![tactic(auto)]

ghost use Rattle.std.specs.Prelude.{◌≡◌, true};
ghost use Rattle.claims_clauses.specs.FlagsFall.{FlagClauses};
ghost use Rattle.claims_clauses.specs.SeenBy.{SeenClauses};
ghost use Rattle.claims_clauses.specs.Permission.{Permission};
ghost use Rattle.claims_clauses.specs.Starts.{StartClauses};
ghost use Rattle.claims_clauses.specs.Off.{WhileOff};
ghost use Rattle.claims_clauses.specs.Noise.{NoiseClauses};
ghost use Rattle.claims_clauses.specs.Witness.{FallMet, NoiseMet};

// Flags and how they fall.
// Ruled out: RDRF falls on a read of byte 0E; TDRE falls unseen; a write of SCSR clears.
pub fn flags_fall() -> bool
    ensures { (result ≡ true) × FlagClauses × Permission × FallMet }
{
    true
}

// What was seen, by the history since a reset.
// Ruled out: a flag that rises in a hold is seen; a word written to SCSR marks; a reset keeps what was seen.
pub fn seen_by() -> bool
    ensures { (result ≡ true) × SeenClauses }
{
    true
}

// A start bit: the three ones before its zero, and the ones at RT3, RT5, RT7.
// Ruled out: two ones before a start; a zero at once after a reset; a start abandoned by RT5 and RT7 alone; the search going on later than at RT8.
pub fn start_bits() -> bool
    ensures { (result ≡ true) × StartClauses × WhileOff }
{
    true
}

// The noise figure of any frame that enters SCDR, by its samples; moved sampling points are no exception.
// Ruled out: a one at RT4 or RT6 counts; RT8 to RT10 of the start bit left out; a bit that is sampled anew counted twice.
pub fn noise_figure() -> bool
    ensures { (result ≡ true) × NoiseClauses × NoiseMet }
{
    true
}
