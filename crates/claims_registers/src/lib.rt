// Registers written by bytes, users' accesses, and pins and requests told by what a host reads, in document 01's numbers. There is nothing to
// compute: the contract is the statement.
#![tactic(auto)]

ghost use Rattle.std.specs.Prelude.{◌≡◌, true};
ghost use Rattle.claims_registers.specs.Claims.{Claims};

// Ruled out: a byte of QILR that clears QIVR; IARB kept by the upper byte; a user who reads QIVR with SUPV clear; pins driven by PQSPAR for DDRQS.
pub fn shown() -> bool
    ensures { (result ≡ true) × Claims }
{
    true
}
