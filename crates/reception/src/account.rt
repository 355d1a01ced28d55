// Document 02, L14: the account of frames that a module gives.
ghost use Rattle.std.specs.Prelude.{◌≡◌};
ghost use Rattle.reception.specs.Report.{report};

use qsm::state::Module;
use sci::flags::Flags;

// Frames taken and lost since the last reset, and whether a word waits in SCDR.
#[derive(Clone, Copy)]
pub struct Report {
    pub taken: u32,
    pub lost: u32,
    pub waiting: bool,
}

fn waits(m: Module) -> bool
    ensures { result ≡ (report m).waiting }
{
    let sci = m.sci;
    let status = sci.status;
    status.has(Flags::RDRF)
}

// The account of a module.
// Ruled out: taken and lost exchanged; a word that was read waiting still.
pub fn reported(m: Module) -> Report
    ensures { result ≡ report m }
{
    Report {
        taken: m.taken(),
        lost: m.lost(),
        waiting: waits(m),
    }
}
