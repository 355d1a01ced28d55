// The planner: the quickest plan for set-points, if it fits the window; and a plan with other registers.
ghost use Rattle.std.specs.Prelude.{◌≡◌, cond, eqb};
ghost use Rattle.tool_plan.specs.Quickest.{quickest, commands_of, other_count, proposed_at, proposal, answered, if_accepted, planned, revised};

use crate::points::Points;
use crate::{Plan, Planned, SetPoints, accepts, proper};

// The command of a set-point.
fn quickest(select: u8, bits: u8) -> u8
    ensures { result ≡ quickest select bits }
{
    if bits == 8 {
        return 16 + select % 16;
    }
    64 + 16 + select % 16
}

// The count that BITS must hold.
fn other_or(bits: u8, before: u8) -> u8
    ensures { result ≡ cond (eqb bits 8) before bits }
{
    if bits == 8 { before } else { bits }
}

impl Points {
    #[tactic(auto, unfolding(crate::specs::Quickest::commands_of))]
    fn commands(self) -> [u8; 16]
        ensures { result ≡ commands_of self.given.selects self.given.bits self.given.count }
    {
        let points = self.given;
        let mut commands = [0; 16];
        for k in 0..usize::from(points.count) {
            commands[k] = quickest(points.selects[k], points.bits[k]);
        }
        commands
    }

    #[tactic(auto, unfolding(crate::specs::Quickest::other_count))]
    fn other_count(self) -> u8
        ensures { result ≡ other_count self.given.bits self.given.count }
    {
        let points = self.given;
        let mut other = 8;
        for k in 0..usize::from(points.count) {
            other = other_or(points.bits[k], other);
        }
        other
    }

    // The quickest plan, with its clock still 0.
    fn proposed(self) -> Plan
        ensures { result ≡ proposed_at self.given 0 }
    {
        let points = self.given;
        let commands = self.commands();
        let words = points.words;
        Plan {
            clock: 0,
            spcr0: 0x8002 + u16::from(self.other_count()) % 16 * 1024,
            spcr1: 0x8100,
            spcr2: 0,
            count: points.count,
            first: 0,
            last: points.count - 1,
            commands,
            words,
        }
    }

    #[tactic(auto, unfolding(crate::specs::Quickest::proposal))]
    fn proposal(self) -> Plan
        ensures { result ≡ proposal self.given }
    {
        let mut plan = self.proposed();
        plan.clock = self.last_edge(plan);
        plan
    }
}

// As hosts have it.
// Ruled out: a plan with a refusal; a refusal that is 0.
impl From<Option<Plan>> for Planned {
    ghost from_gives = { λ p n. n ≡ answered p };

    fn from(plan: Option<Plan>) -> Planned {
        match plan {
            Some(plan) => Planned { plan, refusal: 0 },
            None => {
                let plan = Plan {
                    clock: 0,
                    spcr0: 0,
                    spcr1: 0,
                    spcr2: 0,
                    count: 0,
                    first: 0,
                    last: 0,
                    commands: [0; 16],
                    words: [0; 16],
                };
                Planned { plan, refusal: 11 }
            }
        }
    }
}

#[tactic(auto, unfolding(crate::specs::Quickest::if_accepted))]
fn if_accepted(points: SetPoints, window: u64, plan: Plan) -> Option<Plan>
    ensures { result ≡ if_accepted points window plan }
{
    if accepts(points, window, plan) {
        Some(plan)
    } else {
        None
    }
}

// A plan for set-points in a window, the quickest there is, or none.
// Ruled out: a plan that isn't accepted; a refusal where some plan is; a slower plan than there is.
#[tactic(auto, using(crate::proofs::Outcome::improper))]
pub fn plan(points: SetPoints, window: u64) -> Option<Plan>
    ensures { result ≡ planned points window }
{
    if_accepted(points, window, proper(points)?.proposal())
}

// A plan with other registers, as a converter may want them: its clock worked out anew and the checker asked, or none.
// Ruled out: the old clock kept; a plan given that isn't accepted.
#[tactic(auto, using(crate::proofs::Outcome::improper, crate::proofs::Outcome::miscounted), unfolding(crate::specs::Quickest::changed))]
pub fn revise(points: SetPoints, window: u64, plan: Plan, spcr0: u16, spcr1: u16) -> Option<Plan>
    ensures { result ≡ revised points window plan spcr0 spcr1 }
{
    let proper = proper(points)?;
    if plan.count != points.count {
        return None;
    }
    let mut other = plan;
    other.clock = 0;
    other.spcr0 = spcr0;
    other.spcr1 = spcr1;
    other.clock = proper.last_edge(other);
    if_accepted(points, window, other)
}
