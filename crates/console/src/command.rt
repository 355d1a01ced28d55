// What commands do alike: each reads its line, answers --help and --version, and says what is not expected.
ghost use Rattle.std.specs.Prelude.{◌≡◌, ℕ, IfOk, IfErr};
ghost use Rattle.files.specs.declared.command.Command.{Command as Given};
ghost use Rattle.console.specs.Command.{Ends};
ghost use Rattle.console.specs.Status.{of_stopped};
ghost use Rattle.console.specs.declared.status.Status.{Status as Ended};

use crate::status::Status;
use files::command::{Command as Given, Stopped, read_from};
use files::system::System;

// A command: its name, its options, which are empty where it has fewer than two, how many words may stand beside them, what it says of itself, and what
// it does with a line that it takes.
pub trait Command {
    const NAME: &'static [u8];

    const FIRST: &'static [u8] = b"";

    const SECOND: &'static [u8] = b"";

    const LEAST: usize;

    const MOST: usize;

    const USAGE: &'static [u8];

    const HELP: &'static [u8];

    ghost LEAST: { ℕ };

    ghost MOST: { ℕ };

    // The statuses that it may end a line with.
    ghost ends: { Given → Ended → Type 0 } = { λ _ _. Unit {0} };

    // The words begin at an argument.
    fn answer<R: System>(rt: &R, from: usize, given: Given) -> Status
        ensures { ends given result };
}

// How a command ends whose line was read: by its own answer, or by why the line was not taken.
// Ruled out: a line that is not understood that ends as done; another status than the answer's.
fn ending<C: Command, R: System>(rt: &R, from: usize, read: Result<Given, Stopped>) -> Status
    ensures answered { IfOk read (λ given. C.ends given result) }
    ensures refused { IfErr read (λ why. result ≡ of_stopped why) }
{
    match read {
        Ok(given) => C::answer(rt, from, given),
        Err(why) => Status::from(why),
    }
}

// Runs a command, whose words begin at an argument.
// Ruled out: a command that starts without a word that it needs.
pub fn run<C: Command, R: System>(rt: &R, from: usize) -> Status
    ensures { Ends C.LEAST C.MOST C.ends result }
{
    let read = read_from(
        rt,
        from,
        C::NAME,
        C::FIRST,
        C::SECOND,
        C::LEAST,
        C::MOST,
        C::USAGE,
        C::HELP,
    );
    ending::<C, R>(rt, from, read)
}
