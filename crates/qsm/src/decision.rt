// What becomes of an access: refusals 1 and 2, privilege, refusals 3 and 4, in this order.
ghost use Rattle.std.specs.Prelude.{◌≡◌};
ghost use Rattle.qsm.specs.model.Decision.{refusal_of, shaped, fits, gate, verdict, permits, tested, barred, admitted, decide_read, decide_stored};

use crate::access::Store;
use crate::lanes::{in_map, is_restricted};
use crate::state::Module;

#[derive(Clone, Copy)]
pub enum Decision {
    Permitted,
    // Stopped by privilege.
    Blocked,
    Misshapen,
    Unmapped,
    Unmodelled,
    Guarded,
}

// The number of the refusal; 0 for none.
// Ruled out: a refusal for privilege; 3 and 4 swapped.
pub fn refusal_of(d: Decision) -> u8
    ensures { result ≡ refusal_of d }
{
    match d {
        Decision::Permitted | Decision::Blocked => 0,
        Decision::Misshapen => 1,
        Decision::Unmapped => 2,
        Decision::Unmodelled => 3,
        Decision::Guarded => 4,
    }
}

// Width 1, 2 or 4, and no odd offset with 2 or 4.
// Ruled out: a width of 3; a byte at an odd offset turned away.
pub fn shaped(width: u8, offset: u16) -> bool
    ensures { result ≡ shaped width offset }
{
    (width == 1) | (((width == 2) | (width == 4)) & (offset % 2 == 0))
}

// A written value that is not too big for its width.
// Ruled out: 256 in a byte; a long that is too big.
pub fn fits(width: u8, value: u32) -> bool
    ensures { result ≡ fits width value }
{
    match width {
        1 => value < 256,
        2 => value < 0x10000,
        _ => true,
    }
}

fn gate(shaped: bool, mapped: bool, barred: bool) -> Decision
    ensures { result ≡ gate shaped mapped barred }
{
    if !shaped {
        Decision::Misshapen
    } else if !mapped {
        Decision::Unmapped
    } else if barred {
        Decision::Blocked
    } else {
        Decision::Permitted
    }
}

fn verdict(unmodelled: bool, guarded: bool) -> Decision
    ensures { result ≡ verdict unmodelled guarded }
{
    if unmodelled {
        Decision::Unmodelled
    } else if guarded {
        Decision::Guarded
    } else {
        Decision::Permitted
    }
}

// Ruled out: a blocked access permitted; a refused one permitted.
pub fn permits(d: Decision) -> bool
    ensures { result ≡ permits d }
{
    matches!(d, Decision::Permitted)
}

// Refusals 3 and 4, where nothing came before them. A 3 in either half of a long comes before a 4.
fn tested(admitted: Decision, permitted: bool, unmodelled: bool, guarded: bool) -> Decision
    ensures { result ≡ tested admitted permitted unmodelled guarded }
{
    if permitted {
        verdict(unmodelled, guarded)
    } else {
        admitted
    }
}

impl Module {
    // A user's access to QSMCR, QILR, QIVR, or to anything while SUPV is set.
    fn barred(self, supervisor: bool, width: u8, offset: u16) -> bool
        ensures { result ≡ barred self supervisor width offset }
    {
        !supervisor & ((self.qsmcr / 128 % 2 == 1) | is_restricted(width, offset))
    }

    fn admitted(self, shaped: bool, supervisor: bool, width: u8, offset: u16) -> Decision
        ensures { result ≡ admitted self shaped supervisor width offset }
    {
        gate(
            shaped,
            in_map(width, offset),
            self.barred(supervisor, width, offset),
        )
    }

    // Ruled out: a user's read of QILR permitted; privilege before refusal 2.
    pub fn decide_read(self, supervisor: bool, width: u8, offset: u16) -> Decision
        ensures { result ≡ decide_read self supervisor width offset }
    {
        self.admitted(shaped(width, offset), supervisor, width, offset)
    }

    // What becomes of a write, of which `s` is the words' outcome.
    // Ruled out: every access refused; refusal 4 before 3.
    pub fn decide_write(
        self,
        s: Store,
        supervisor: bool,
        width: u8,
        offset: u16,
        value: u32,
    ) -> Decision
        ensures { result ≡ decide_stored self s supervisor width offset value }
    {
        let d = self.admitted(
            shaped(width, offset) & fits(width, value),
            supervisor,
            width,
            offset,
        );
        tested(d, permits(d), s.unmodelled, s.guarded)
    }
}
