// What is said at the end of a trace or at its stop, and the status.
ghost use Rattle.std.specs.Prelude.{◌≡◌};
ghost use Rattle.text.specs.Line.{Shows};
ghost use Rattle.text.specs.Account.{account_line};
ghost use Rattle.reception.specs.Report.{report};
ghost use Rattle.console.specs.Output.{Gives};
ghost use Rattle.cmd_replay.specs.End.{status_of, tally_text, account_text, end_text};

use crate::piece::Next;
use console::output::{Out, put_line};
use console::status::Status;
use files::system::Sink;
use qsm::state::Module;
use reception::account::reported;
use reception::tally::Tally;
use text::line::Line;

// Ruled out: a trace that stopped that ends as done; a read or a write that failed that ends as a stop.
pub fn status_of(next: Next) -> Status
    ensures { result ≡ status_of next }
{
    match next {
        Next::Done => Status::Done,
        Next::Refused(_) => Status::Found,
        Next::Play => Status::Failed,
        Next::Read => Status::Failed,
        Next::NotRead(_) => Status::Failed,
        Next::NotWritten => Status::Failed,
    }
}

// What a module reports of its frames.
// Ruled out: the counts exchanged; a word that was read said to wait.
fn module_line(m: Module) -> Line
    ensures { Shows result (account_line (report m).taken (report m).lost (report m).waiting) }
{
    let a = reported(m);
    text::account::account_line(a.taken, a.lost, a.waiting)
}

#[tactic(auto, using(console::proofs::Lines::given_if, console::proofs::Lines::given_not))]
fn put_tally(noise: bool, t: Tally, to: &Sink, out: Out, buf: &mut [u8]) -> Out
    ensures { Gives out buf.old (tally_text noise t) result buf.new }
{
    if noise {
        return put_line(
            to,
            out,
            buf,
            text::noise::tally_line(t.words, t.noisy, t.worst),
        );
    }
    out
}

#[tactic(auto, using(console::proofs::Lines::given_if, console::proofs::Lines::given_not))]
fn put_account(account: bool, m: Module, to: &Sink, out: Out, buf: &mut [u8]) -> Out
    ensures { Gives out buf.old (account_text account m) result buf.new }
{
    if account {
        return put_line(to, out, buf, module_line(m));
    }
    out
}

// The tally of the words and the account of the frames, each if it is asked for.
// Ruled out: a line that is not asked for; the tally behind the account.
#[tactic(auto, using(console::proofs::Giving::both))]
pub fn put_end(
    noise: bool,
    t: Tally,
    account: bool,
    m: Module,
    to: &Sink,
    out: Out,
    buf: &mut [u8],
) -> Out
    ensures { Gives out buf.old (end_text noise t account m) result buf.new }
{
    let told = put_tally(noise, t, to, out, buf);
    put_account(account, m, to, told, buf)
}
