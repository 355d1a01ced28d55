// A poll: status is read, and data if RDRF or OR showed, as supervisor words.
ghost use Rattle.std.specs.Prelude.{◌≡◌};
ghost use Rattle.tool_lines.specs.Poll.{calls, taking, polled};

use qsm::event::{Access, Event};
use qsm::state::Module;

// The module after a poll, the status that it showed, and the word that it read, 0 where it read none.
#[derive(Clone, Copy)]
pub struct Polled {
    pub state: Module,
    pub status: u32,
    pub word: u32,
}

// RDRF or OR stands in a status.
fn calls(status: u32) -> bool
    ensures { result ≡ calls status }
{
    (status / 64 % 2 == 1) | (status / 8 % 2 == 1)
}

fn taking(m: Module, status: u32, reading: bool) -> Polled
    ensures { result ≡ taking m status reading }
{
    if reading {
        let s = qsm::event::step(m, Event::Access(Access::Read(true, 2, 0x0E)));
        let answer = s.answer;
        let state = s.state;
        Polled {
            state,
            status,
            word: answer.value,
        }
    } else {
        Polled {
            state: m,
            status,
            word: 0,
        }
    }
}

// Ruled out: data read whatever status shows; a flag that is shown and not seen.
pub fn poll(m: Module) -> Polled
    ensures { result ≡ polled m }
{
    let s = qsm::event::step(m, Event::Access(Access::Read(true, 2, 0x0C)));
    let answer = s.answer;
    let state = s.state;
    let status = answer.value;
    taking(state, status, calls(status))
}
