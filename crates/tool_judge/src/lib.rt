// A vendor's log judged: accepted exactly if it is what the model gives, else the first wrong answer and its first wrong field.
#![tactic(auto)]

ghost use Rattle.std.specs.Prelude.{◌≡◌, cond, not, ◌&&◌, ◌≤◌, ltb, length};
ghost use Rattle.trace.specs.Trace.{answer_length};
ghost use Rattle.tool_judge.specs.Verdict.{accept, reject, alike, verdict, numbered, before};
ghost use Rattle.tool_judge.specs.Judge.{judged, walked, ran};

mod claims;
pub mod numbers;

use answers::{Field, field_at};
use qsm::state::Module;
use trace::refusals::refusal_of;
use trace::{ANSWER_LENGTH, Parsed};

// Why a log is not accepted: the number of its first wrong answer, and the first field of it that is.
#[derive(Clone, Copy)]
pub struct Wrong {
    pub answer: usize,
    pub field: Field,
}

// The verdict, and the refusal that stopped the trace (5, 6 or 10) or 0.
#[derive(Clone, Copy)]
pub struct Judged {
    pub verdict: Result<(), Wrong>,
    pub stop: u8,
}

// A part of a trace that was played beside a part of a log: the module, the records answered, the bytes of both that are done with, the
// verdict on these answers, and the refusal that stopped the trace or 0; 7 where the part of the log has no further answer.
#[derive(Clone, Copy)]
pub struct Walked {
    pub state: Module,
    pub records: usize,
    pub read: usize,
    pub passed: usize,
    pub verdict: Result<(), Wrong>,
    pub stop: u8,
}

// A walk, and the bytes of the last of the model's answers, or zeros where it gave none.
#[derive(Clone, Copy)]
pub struct Ran {
    pub walked: Walked,
    pub ours: [u8; ANSWER_LENGTH],
}

// With how many bytes two slices begin alike.
fn alike(x: &[u8], y: &[u8]) -> usize
    ensures { result ≡ alike x.now y.now }
{
    let both = x.len().min(y.len());
    for i in 0..both {
        if x[i] != y[i] {
            return i;
        }
    }
    both
}

// Answer n, x, of which the log has the bytes y.
fn one(n: usize, x: [u8; ANSWER_LENGTH], y: &[u8]) -> Result<(), Wrong>
    requires { length y.now ≤ answer_length }
    ensures { result ≡ numbered n (verdict x y.now) }
{
    let k = alike(&x, y);
    if k == ANSWER_LENGTH {
        return Ok(());
    }
    let field = if y.len() < ANSWER_LENGTH {
        Field::Kind
    } else {
        field_at(k)
    };
    Err(Wrong { answer: n, field })
}

// An earlier wrong answer stands.
fn told(v: Result<(), Wrong>, n: usize, x: [u8; ANSWER_LENGTH], y: &[u8]) -> Result<(), Wrong>
    requires { length y.now ≤ answer_length }
    ensures { result ≡ before v (numbered n (verdict x y.now)) }
{
    v?;
    one(n, x, y)
}

// Whether an answer waits for the next part of the log.
fn waits(last: bool, here: usize) -> bool
    ensures { result ≡ not last && ltb here answer_length }
{
    !last & (here < ANSWER_LENGTH)
}

// Plays a part of a trace beside the part of a log that has its answers, which may be the log's last. What a program plays it plays here, so
// that the step is compiled in line.
// Ruled out: a part of a log that ends taken for a missing answer; a later wrong answer over an earlier one; a trace left at a wrong answer;
// the log's answer for the model's.
pub fn run<'a>(m: Module, trace: &'a [u8], log: &'a [u8], last: bool) -> Ran
    ensures { result ≡ ran m trace.now log.now last }
{
    let mut walked = Walked {
        state: m,
        records: 0,
        read: 0,
        passed: 0,
        verdict: Ok(()),
        stop: 0,
    };
    let mut ours = [0u8; ANSWER_LENGTH];
    while walked.read < trace.len() {
        let p = trace::parse(&trace[walked.read..]);
        let Parsed::Record(e, size) = p else {
            let stop = refusal_of(p);
            return Ran {
                walked: Walked { stop, ..walked },
                ours,
            };
        };
        let passed = walked.passed;
        let here = ANSWER_LENGTH.min(log.len() - passed);
        let full = waits(last, here);
        if full {
            return Ran {
                walked: Walked { stop: 7, ..walked },
                ours,
            };
        }
        let s = qsm::event::step(walked.state, e);
        let answer = s.answer;
        // A hold that is refused 10 leaves the module as it was.
        walked.state = s.state;
        if answer.refusal == 10 {
            return Ran {
                walked: Walked { stop: 10, ..walked },
                ours,
            };
        }
        let end = passed + here;
        ours = trace::answer_bytes(answer);
        walked.verdict = told(walked.verdict, walked.records, ours, &log[passed..end]);
        walked.read += size;
        walked.passed = end;
        walked.records += 1;
    }
    Ran { walked, ours }
}

// The same without the last answer.
// Ruled out: another module than the part leaves; bytes of the log passed that have no answer.
pub fn walk<'a>(m: Module, trace: &'a [u8], log: &'a [u8], last: bool) -> Walked
    ensures { result ≡ walked m trace.now log.now last }
{
    run(m, trace, log, last).walked
}

// Bytes after the last answer are a wrong answer.
fn at_end(n: usize, surplus: bool) -> Result<(), Wrong>
    ensures { result ≡ cond surplus (reject n Field.Kind) accept }
{
    if surplus {
        return Err(Wrong {
            answer: n,
            field: Field::Kind,
        });
    }
    Ok(())
}

fn closed(v: Result<(), Wrong>, n: usize, surplus: bool) -> Result<(), Wrong>
    ensures { result ≡ before v (cond surplus (reject n Field.Kind) accept) }
{
    v?;
    at_end(n, surplus)
}

// Judges a log of a trace, from a module after reset.
// Ruled out: a log accepted that is a beginning of the right one; surplus bytes let through; a stop that a wrong answer hides.
pub fn judge<'a>(trace: &'a [u8], log: &'a [u8]) -> Judged
    ensures { result ≡ judged trace.now log.now }
{
    let w = walk(Module::reset(), trace, log, true);
    Judged {
        verdict: closed(w.verdict, w.records, w.passed < log.len()),
        stop: w.stop,
    }
}
