// A judgement in numbers, for hosts in C.
ghost use Rattle.std.specs.Prelude.{◌≡◌};
ghost use Rattle.tool_judge.specs.Judge.{judged};
ghost use Rattle.tool_judge.specs.Numbers.{in_numbers};

use crate::Judged;

// The number of the first wrong answer and of its first wrong field, both 0 where the log is accepted; and the refusal that stopped the trace
// or 0.
#[repr(C)]
#[derive(Clone, Copy)]
pub struct Judgement {
    pub number: u64,
    pub field: u8,
    pub stop: u8,
}

impl From<Judged> for Judgement {
    ghost from_gives = { λ j n. n ≡ in_numbers j };

    fn from(j: Judged) -> Judgement {
        match j.verdict {
            Ok(()) => Judgement {
                number: 0,
                field: 0,
                stop: j.stop,
            },
            Err(wrong) => Judgement {
                number: wrong.answer as u64,
                field: u8::from(wrong.field),
                stop: j.stop,
            },
        }
    }
}

// Ruled out: a field of 0 for a log that is wrong; a number of another answer.
pub fn judge_numbers<'a>(trace: &'a [u8], log: &'a [u8]) -> Judgement
    ensures { result ≡ in_numbers (judged trace.now log.now) }
{
    Judgement::from(crate::judge(trace, log))
}
