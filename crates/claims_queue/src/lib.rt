// Document 01's Queue by its own numbers: an entry clock by clock, what follows it, what writes and a mode fault do, with no definition of the
// model cited. There is nothing to compute: the contract is the statement.
#![tactic(auto)]

ghost use Rattle.std.specs.Prelude.{◌≡◌, true};
ghost use Rattle.claims_queue.specs.Claims.{Claims};

// Ruled out: WRTO ignored, or taken from SPCR2 as it is read; CPTQP set before edge 2n; HALT asked for at an entry's start; MSTR cleared by a mode
// fault; MISO read on the other edges; a delay of 16 clocks.
pub fn shown() -> bool
    ensures { (result ≡ true) × Claims }
{
    true
}
