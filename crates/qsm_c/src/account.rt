// Document 02, L14: the module's two counts, of a module that is only looked at.
ghost use Rattle.std.specs.Prelude.{◌≡◌};

use qsm::state::Module;

// Frames taken since the last reset.
// Ruled out: only those that entered SCDR; those lost.
#[unsafe(no_mangle)]
pub extern "C" fn qsm_taken(m: &Module) -> u32
    ensures { result ≡ m.now.sci.account.taken }
{
    let s = *m;
    s.taken()
}

// Frames lost since the last reset.
// Ruled out: rises of OR; frames taken.
#[unsafe(no_mangle)]
pub extern "C" fn qsm_lost(m: &Module) -> u32
    ensures { result ≡ m.now.sci.account.lost }
{
    let s = *m;
    s.lost()
}
