// The judging of a vendor's log, for hosts in C.
ghost use Rattle.std.specs.Prelude.{◌≡◌};
ghost use Rattle.tool_judge.specs.Judge.{judged};
ghost use Rattle.tool_judge.specs.Numbers.{in_numbers};

use tool_judge::numbers::Judgement;

// A log of a trace, judged from a module after reset.
// Ruled out: the trace and the log exchanged; a log that is a beginning of the right one accepted.
#[unsafe(no_mangle)]
pub extern "C" fn qsm_judge<'a>(trace: &'a [u8], log: &'a [u8]) -> Judgement
    ensures { result ≡ in_numbers (judged trace.now log.now) }
{
    tool_judge::numbers::judge_numbers(trace, log)
}
