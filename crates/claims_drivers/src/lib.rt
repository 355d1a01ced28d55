// Demand 3 over lists that hold driver accesses, claims and releases too (02, L11), held by a contract.
#![tactic(auto)]

ghost use Rattle.std.specs.Prelude.{true, ◌≡◌};
ghost use Rattle.claims_drivers.specs.Demand3.{DrivenDemand3};

// Of every list of events of a host and two drivers, from a module that is new.
// Ruled out: an access refused 9 that reaches the receiver; a driver's access that is another of the module's; a claim that takes a sample.
pub fn demand3() -> bool
    ensures { (result ≡ true) × DrivenDemand3 }
{
    true
}
