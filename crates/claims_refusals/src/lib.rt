// What is shown of the module and its trace: demand 1 and the marked examples. Where there is nothing to compute the contract is the
// statement, so that it can't be left out unnoticed.
#![tactic(auto)]

ghost use Rattle.std.specs.Prelude.{◌≡◌, true};
ghost use Rattle.claims_refusals.specs.Demand1.{Demand1, Written};
ghost use Rattle.claims_refusals.specs.Marked.{Marked};

use qsm::state::Module;
use trace::Played;

// Demand 1: each refusal and privilege exactly when document 01 says, and nothing changed.
// Ruled out: a hole in the map answered; a refused write that leaves its first half.
pub fn refusals() -> bool
    ensures { (result ≡ true) × Demand1 }
{
    true
}

// Demand 1 of a trace that is played into a lent output.
// Ruled out: a refusal that stops a trace and writes a byte; an answer given before it that doesn't stand.
pub fn play(m: Module, records: &[u8], out: &mut [u8]) -> Played
    ensures { Written m records.now out.old result out.new }
{
    trace::play(m, records, out)
}

// K1 to K12.
// Ruled out: idle at 159 ones; an entry of 80 clocks.
pub fn marked_examples() -> bool
    ensures { (result ≡ true) × Marked }
{
    true
}
