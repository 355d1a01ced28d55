// Document 02, L1: the words that enter SCDR clock by clock, each with its noise figure, and how the modules before and after an event tell them.
#![tactic(auto)]

ghost use Rattle.std.specs.Prelude.{◌≡◌, true};
ghost use Rattle.claims_words.specs.Claims.{Claims};

// All that is shown of the words. Nothing to compute: the contract is the record of the laws, so that none can be left out unnoticed.
// Ruled out: a lost frame's figure among them; a word left out or told twice; a noisy word told as clean.
pub fn shown() -> bool
    ensures { (result ≡ true) × Claims }
{
    true
}
