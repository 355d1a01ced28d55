// The users' demands as claims about lists of the module's events, each held by a contract.
#![tactic(auto)]

ghost use Rattle.std.specs.Prelude.{true, ◌≡◌};
ghost use Rattle.claims_histories.specs.Demand2.{Demand2};
ghost use Rattle.claims_histories.specs.Sentence.{Sentence, CanArrive};
ghost use Rattle.claims_histories.specs.Demand3.{Demand3};
ghost use Rattle.claims_histories.specs.Host.{Hosted};
ghost use Rattle.claims_histories.specs.Witness.{Met};

// Demand 2, of any two modules of one rate and one set of settings: its sentence as one claim, of a frame and its two lists of events, with
// lists that meet it; and words in turn: what the one sends on pin 7 arrives in the other, word for word.
// Ruled out: a frame whose bits or stop bit the receiver misses at some count of the prescalers; a second frame heard in one; a parity bit of
// the other sense; an answer that shows another word; a word lost or marred between frames that are read in time, or where a request is
// enabled; a frame that ends early where TE is cleared; a pin 7 that doesn't show TXD.
pub fn demand2() -> bool
    ensures { (result ≡ true) × Sentence × CanArrive × Demand2 }
{
    true
}

// Demand 3, of every list of events on a module fresh from reset, with a receiver to compare with for each; and lists that meet its
// hypotheses and then deliver a word.
// Ruled out: a receiver that keeps a trace of its past; one that delivers past an unseen loss; a claim that nothing can meet.
pub fn demand3() -> bool
    ensures { (result ≡ true) × Demand3 × Met }
{
    true
}

// Of what a host does with the module that it keeps: its calls in a row give what the fold of the step gives.
// Ruled out: an entry whose module is not the next call's; an answer of an earlier step.
pub fn hosted() -> bool
    ensures { (result ≡ true) × Hosted }
{
    true
}
