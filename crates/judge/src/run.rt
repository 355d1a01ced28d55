// Where a run stands, and what it makes of a piece of the trace and a piece of the log.
ghost use Rattle.std.specs.Prelude.{◌≡◌};
ghost use Rattle.judge.specs.Run.{after_stop};

use crate::piece::Piece;
use crate::show::show_wrong;
use files::pieces::counted;
use files::system::Sink;
use qsm::state::Module;
use tool_judge::Walked;

// Where a run stands: the module, the records answered and the bytes of the trace that they had, the two pieces, and whether a wrong answer
// was found.
#[derive(Clone, Copy)]
pub struct Run {
    pub state: Module,
    pub records: u64,
    pub place: u64,
    pub trace: Piece,
    pub log: Piece,
    pub wrong: bool,
}

// What comes next: more of the trace or of the log is read; or the end, with the refusal that stopped the trace or 0.
#[derive(Clone, Copy)]
pub enum Next {
    Trace,
    Log,
    Done(u8),
}

// What could not be read or written, or does not end.
#[derive(Clone, Copy)]
pub enum Failure {
    Trace,
    Log,
    Output,
    TooLong,
}

// Ruled out: a record cut by the end of a piece that is refused; a log that ends with its piece.
pub fn after_stop(stop: u8, ended: bool) -> Next
    ensures { result ≡ after_stop stop ended }
{
    if stop == 7 {
        return Next::Log;
    }
    if ended {
        return Next::Done(stop);
    }
    if stop == 0 {
        return Next::Trace;
    }
    if stop == 6 {
        return Next::Trace;
    }
    Next::Done(stop)
}

impl Run {
    pub fn start() -> Run {
        Run {
            state: Module::reset(),
            records: 0,
            place: 0,
            trace: Piece::nothing(),
            log: Piece::nothing(),
            wrong: false,
        }
    }

    // Past a part of both.
    fn pass(&mut self, w: Walked) {
        self.state = w.state;
        self.records = counted(self.records, w.records);
        self.place = counted(self.place, w.read);
        self.trace = self.trace.further(w.read);
        self.log = self.log.further(w.passed);
    }

    // Plays what is there of the trace beside what is there of the log; after a wrong answer the log has no more to say.
    pub fn advance<'a>(&mut self, to: &Sink, t: &'a [u8], l: &'a [u8]) -> Result<Next, Failure> {
        let w = tool_judge::walk(self.state, t, l, self.log.ended | self.wrong);
        let next = after_stop(w.stop, self.trace.ended);
        if !self.wrong {
            if let Err(wrong) = w.verdict {
                let number = counted(self.records, wrong.answer);
                if !show_wrong(to, self.state, t, l, number, wrong) {
                    return Err(Failure::Output);
                }
                self.wrong = true;
            }
        }
        self.pass(w);
        Ok(next)
    }
}
