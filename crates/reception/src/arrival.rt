// Document 02, L1: the word that enters SCDR within an event, with its noise figure, told by the module before the event and after it.
ghost use Rattle.std.specs.Prelude.{◌≡◌};
ghost use Rattle.reception.specs.Arrival.{fills, arrival};

use qsm::state::Module;
use sci::flags::Flags;

fn fills(before: Module, after: Module) -> bool
    ensures { result ≡ fills before after }
{
    let sci = before.sci;
    let status = sci.status;
    let left = after.sci;
    let now = left.status;
    !status.has(Flags::RDRF) & now.has(Flags::RDRF)
}

// The noise figure of the word that entered SCDR from before an event to after it. At most one can.
// Ruled out: a word that waits told again; a lost frame's figure.
pub fn arrived(before: Module, after: Module) -> Option<u8>
    ensures { result ≡ arrival before after }
{
    if fills(before, after) {
        Some(after.noise())
    } else {
        None
    }
}
