// Two drivers share one queue: what the one is answered does not depend on the data of the other (02, L11).
#![tactic(auto)]

ghost use Rattle.std.specs.Prelude.{◌≡◌, true};
ghost use Rattle.claims_isolation.specs.Twins.{Isolation};
ghost use Rattle.claims_isolation.specs.Witness.{BothMet};

// Neither sees the other, of any two histories alike but for the one's transmit words and MISO while its entries run; and two such for each
// driver, in which it reads another word.
// Ruled out: a receive word that takes a bit of the other's entry; an entry whose length, end or flags go by the word that it sends.
pub fn neither_sees_the_other() -> bool
    ensures { (result ≡ true) × Isolation × BothMet }
{
    true
}
