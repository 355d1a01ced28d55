// What is said of two logs, and the status.
ghost use Rattle.std.specs.Prelude.{◌≡◌};
ghost use Rattle.text.specs.Line.{Shows};
ghost use Rattle.cmd_compare.specs.Tally.{equal};
ghost use Rattle.cmd_compare.specs.Verdict.{compared_text, other_text, verdict_text, compared_status, is_done, status_of, to_show, status_shown};

use crate::piece::{End, Other};
use crate::tally::{Tally, answers_of, more_of};
use console::status::Status;
use text::line::Line;
use text::verdict::{differ_line, equal_line, other_line, refused_line};

fn equal(t: Tally) -> bool
    ensures { result ≡ equal t }
{
    (t.differing == 0) & (t.first == t.second)
}

// Of logs that were compared to their ends.
fn compared_line(t: Tally) -> Line
    ensures { Shows result (compared_text t) }
{
    if equal(t) {
        return equal_line(answers_of(t));
    }
    let first = more_of(t.kind, t.first, t.second);
    let second = more_of(t.kind, t.second, t.first);
    differ_line(t.differing, answers_of(t), first, second)
}

fn line_of_other(o: Other) -> Line
    ensures { Shows result (other_text o) }
{
    other_line(u8::from(o.log), o.answer, o.place, o.byte, o.kind)
}

// The first line; none where the logs could not be read.
// Ruled out: equal for logs of which one has more; a refusal that reads as a difference.
#[tactic(auto, using(crate::proofs::Giving::none_shown), unfolding(crate::specs::Verdict::verdict_text))]
pub fn verdict_line(t: Tally, end: End) -> Line
    ensures { Shows result (verdict_text t end) }
{
    match end {
        End::Done => compared_line(t),
        End::Refused(r) => refused_line(r),
        End::OtherKind(o) => line_of_other(o),
        End::More => Line::empty(),
        End::NotRead(_) => Line::empty(),
        End::NotWritten => Line::empty(),
    }
}

fn compared_status(t: Tally) -> Status
    ensures { result ≡ compared_status t }
{
    if equal(t) {
        Status::Done
    } else {
        Status::Found
    }
}

// Whether a pass came to the ends of both logs.
// Ruled out: logs that were refused, or could not be read, taken for compared ones.
fn is_done(end: End) -> bool
    ensures { result ≡ is_done end }
{
    match end {
        End::Done => true,
        End::More => false,
        End::Refused(_) => false,
        End::OtherKind(_) => false,
        End::NotRead(_) => false,
        End::NotWritten => false,
    }
}

// Ruled out: a difference that ends as done; logs that were refused or not read that end as done or as differing.
pub fn status_of(t: Tally, end: End) -> Status
    ensures { result ≡ status_of t end }
{
    if is_done(end) {
        return compared_status(t);
    }
    Status::Failed
}

// Whether there are answers to show.
// Ruled out: a second pass over logs that were refused; none where an answer differs.
pub fn to_show(t: Tally, end: End) -> bool
    ensures { result ≡ to_show t end }
{
    is_done(end) & (t.differing > 0)
}

// The status after the pass that shows them, which ends as the first did unless the logs have changed or can't be read.
// Ruled out: lines left out that end as a difference shown whole.
pub fn status_shown(s: Status, end: End) -> Status
    ensures { result ≡ status_shown s end }
{
    if is_done(end) { s } else { Status::Failed }
}
