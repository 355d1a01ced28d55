// The writes that load a plan, one by one.
ghost use Rattle.std.specs.Prelude.{◌≡◌};
ghost use Rattle.tool_plan.specs.Writes.{entries_of, register_write, write_at, writes_of};

use crate::Plan;

// A supervisor's write, for the host to make: width in bytes, offset from the module's base, and value. Width 0 is none.
#[repr(C)]
#[derive(Clone, Copy)]
pub struct HostWrite {
    pub value: u32,
    pub offset: u16,
    pub width: u8,
}

impl HostWrite {
    // What hosts are given past the last write.
    pub const NONE: HostWrite = HostWrite {
        value: 0,
        offset: 0,
        width: 0,
    };
}

fn entries(plan: Plan) -> u16
    ensures { result ≡ entries_of plan }
{
    u16::from(plan.count.min(16))
}

fn register_write(plan: Plan, j: u16) -> Option<HostWrite>
    ensures { result ≡ register_write plan j }
{
    match j {
        0 => Some(HostWrite {
            value: u32::from(plan.spcr0),
            offset: 0x18,
            width: 2,
        }),
        1 => {
            let kept = u32::from(plan.spcr2 / 8192) * 8192;
            Some(HostWrite {
                value: kept + u32::from(plan.last) * 256 + u32::from(plan.first),
                offset: 0x1C,
                width: 2,
            })
        }
        2 => Some(HostWrite {
            value: u32::from(plan.spcr1),
            offset: 0x1A,
            width: 2,
        }),
        _ => None,
    }
}

// How many writes load a plan.
// Ruled out: SPCR1 left out; two for each of sixteen entries whatever the plan has.
pub fn writes(plan: Plan) -> u16
    ensures { result ≡ writes_of plan }
{
    entries(plan) * 2 + 3
}

// Write number i, from 0: for each entry its transmit word and its command byte, then SPCR0, SPCR2 with the pointers, and SPCR1; none past
// the last.
// Ruled out: SPCR1 before the last entry; the pointers of the plan's own SPCR2; an entry beyond the plan's.
#[tactic(auto, unfolding(crate::specs::Writes::write_at))]
pub fn write(plan: Plan, i: u16) -> Option<HostWrite>
    ensures { result ≡ write_at plan i }
{
    let n = entries(plan);
    if n * 2 <= i {
        return register_write(plan, i - n * 2);
    }
    let k = usize::from(i / 2);
    let at = (u16::from(plan.first) + i / 2) % 16;
    if i % 2 == 0 {
        return Some(HostWrite {
            value: u32::from(plan.words[k]),
            offset: 0x120 + at * 2,
            width: 2,
        });
    }
    Some(HostWrite {
        value: u32::from(plan.commands[k]),
        offset: 0x140 + at,
        width: 1,
    })
}
