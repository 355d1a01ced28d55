// The exit statuses of a command.
ghost use Rattle.std.specs.Prelude.{◌≡◌};
ghost use Rattle.console.specs.Status.{number, worse, of_stopped};

use files::command::Stopped;

// Done and nothing found; done and something found, as a difference; not done, as where a file can't be read.
#[derive(Clone, Copy, PartialEq, Eq)]
pub enum Status {
    Done,
    Found,
    Failed,
}

// Ruled out: a failure that a script takes for done; a difference that it takes for a failure.
impl From<Status> for i32 {
    ghost from_gives = { λ s n. n ≡ number s };

    fn from(s: Status) -> i32 {
        match s {
            Status::Done => 0,
            Status::Found => 1,
            Status::Failed => 2,
        }
    }
}

// Ruled out: a wrong command line that ends as done; an answered one that ends as failed.
impl From<Stopped> for Status {
    ghost from_gives = { λ s t. t ≡ of_stopped s };

    fn from(s: Stopped) -> Status {
        match s {
            Stopped::Answered => Status::Done,
            Stopped::Wrong => Status::Failed,
        }
    }
}

// What a command ends with once its output is written, or could not be.
// Ruled out: a failed write that ends as done.
pub fn worse(failed: bool, s: Status) -> Status
    ensures { result ≡ worse failed s }
{
    if failed { Status::Failed } else { s }
}
