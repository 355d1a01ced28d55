// What a record is refused for: 3, 8, 7, in this order. Refusal 3 is the module's own.
ghost use Rattle.std.specs.Prelude.{◌≡◌};
ghost use Rattle.tool_editions.specs.Refusals.{refusal_in};
ghost use Rattle.tool_editions.specs.Rules.{tries, unmodelled, ranked};

use crate::records::Edition;
use crate::refusals::Refusal;
use qsm::event::{Access, Event};
use qsm::state::Module;

// Settings being written to a module: what it has become, and whether a write so far was refused 3.
#[derive(Clone, Copy)]
pub struct Tried {
    pub state: Module,
    pub refused: bool,
}

impl Tried {
    // A register written as a supervisor's word.
    #[tactic(auto, unfolding(crate::specs::Rules::tries, qsm::specs::model::Event::step, qsm::specs::model::Event::does))]
    fn tries(self, offset: u16, value: u16) -> Tried
        ensures { result ≡ tries self offset value }
    {
        let written = Event::Access(Access::Write(true, 2, offset, value as u32));
        let s = qsm::event::step(self.state, written);
        Tried {
            state: s.state,
            refused: self.refused | (s.answer.refusal == 3),
        }
    }
}

// Whether the module, after a reset, refuses one of the four writes with 3.
// Ruled out: SPE without MSTR let; the last write's refusal alone.
#[tactic(auto, unfolding(crate::specs::Rules::unmodelled))]
pub fn unmodelled(e: Edition) -> bool
    ensures { result ≡ unmodelled e }
{
    let fresh = Tried {
        state: Module::reset(),
        refused: false,
    };
    fresh
        .tries(0x08, e.sccr0)
        .tries(0x0A, e.sccr1)
        .tries(0x18, e.spcr0)
        .tries(0x1A, e.spcr1)
        .refused
}

// The check order.
// Ruled out: 8 before 3; 7 before 8.
pub fn ranked(three: bool, eight: bool, room: bool) -> Result<(), Refusal>
    ensures { refusal_in result ≡ ranked three eight room }
{
    if three {
        return Err(Refusal::Unmodelled);
    }
    if eight {
        return Err(Refusal::BadNumber);
    }
    if room { Ok(()) } else { Err(Refusal::NoRoom) }
}
