// The refusal of what stands at the start of a rest of a trace.
ghost use Rattle.std.specs.Prelude.{◌≡◌};
ghost use Rattle.trace.specs.Play.{refusal_of};

use crate::Parsed;

// 0 for a whole record.
// Ruled out: 5 and 6 exchanged; a refusal of a whole record.
pub fn refusal_of(p: Parsed) -> u8
    ensures { result ≡ refusal_of p }
{
    match p {
        Parsed::Record(_, _) => 0,
        Parsed::Unknown => 5,
        Parsed::Cut => 6,
    }
}
