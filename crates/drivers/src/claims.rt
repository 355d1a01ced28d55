// What is shown of two drivers at one module: document 02, L11, sentence by sentence.
ghost use Rattle.std.specs.Prelude.{◌≡◌, true};
ghost use Rattle.drivers.specs.Claims.{Claims};
ghost use Rattle.drivers.specs.Witness.{Met};

// Nothing to compute: the contract is the record of the laws, so that none of them can be left out unnoticed.
// Ruled out: SPSR read without the claim; a claim that outlives a reset; a later reset that changes s.
pub fn shown() -> bool
    ensures { (result ≡ true) × Claims × Met }
{
    true
}
