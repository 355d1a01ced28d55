// The receiver by number: silence with RE clear, the three samples before a start through holds, idle lines, moved points; and how long TXD is
// driven. There is nothing to compute: the contract is the statement.
#![tactic(auto)]

ghost use Rattle.std.specs.Prelude.{◌≡◌, true};
ghost use Rattle.claims_receiver.specs.Claims.{Claims};

// Ruled out: a flag that rises with RE clear; an idle line of 160 ones with M=1; ILT that counts from the start bit; TXD let go with TE.
pub fn shown() -> bool
    ensures { (result ≡ true) × Claims }
{
    true
}
