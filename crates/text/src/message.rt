// The lines that say what is wrong, and where it stands: the number, from 0, of a record or an answer, and its place in bytes.
ghost use Rattle.std.specs.Prelude.{◌≡◌, cond};
ghost use Rattle.text.specs.Digits.{ascii};
ghost use Rattle.text.specs.Line.{puts, Shows};
ghost use Rattle.text.specs.Message.{stop_words, fault_words, located, stop_line, fault_line};

use crate::line::Line;
use trace::Stop;

// What is wrong with an answer of a log or a record of a trace.
#[derive(Clone, Copy)]
pub enum Fault {
    NoAnswer,
    OtherKind,
    NoRefusal,
    NotDriven,
    NoRecord,
    Cut,
}

impl Line {
    // Ruled out: the words of another stop; a full stop behind them.
    pub fn stop_words(self, stop: Stop) -> Line
        ensures { result ≡ puts self (stop_words stop) }
    {
        match stop {
            Stop::End => self.write(b"end of the trace"),
            Stop::UnknownKind => self.write(b"unknown record kind"),
            Stop::CutRecord => self.write(b"record cut by the end of the trace"),
            Stop::NoRoom => self.write(b"no room left for an answer"),
            Stop::ClockLimit => self.write(b"hold past the clock's limit"),
        }
    }

    fn fault_words(self, fault: Fault) -> Line
        ensures { result ≡ puts self (fault_words fault) }
    {
        match fault {
            Fault::NoAnswer => self.write(b"its first byte is neither hex 10 nor hex 11"),
            Fault::OtherKind => self.write(b"it is of another kind than those before it"),
            Fault::NoRefusal => self.write(b"its refusal is neither 0 to 4 nor 9"),
            Fault::NotDriven => self.write(b"it gives the level of a pin that is not driven"),
            Fault::NoRecord => self.write(b"unknown record kind"),
            Fault::Cut => self.write(b"cut by the end of the input"),
        }
    }

    // Ruled out: number and place exchanged; a number from 1.
    pub fn located(self, what: &[u8], number: u64, place: u64) -> Line
        ensures { result ≡ puts self (located what.now number place) }
    {
        self.write(what)
            .decimal(20, number)
            .write(b" at byte ")
            .decimal(20, place)
    }

    fn kind(self, traces: bool, number: u64, place: u64) -> Line
        ensures { result ≡ puts self (located (cond traces (ascii "record ") (ascii "answer ")) number place) }
    {
        if traces {
            self.located(b"record ", number, place)
        } else {
            self.located(b"answer ", number, place)
        }
    }
}

// What stopped a trace, and the record before which it stopped.
// Ruled out: the number of another refusal; the record after it.
pub fn stop_line(stop: Stop, number: u64, place: u64) -> Line
    ensures { Shows result (stop_line stop number place) }
{
    Line::empty()
        .write(b"refusal ")
        .decimal(3, trace::stop_number(stop) as u64)
        .write(b", ")
        .stop_words(stop)
        .write(b": ")
        .located(b"record ", number, place)
        .put(10)
}

// What is wrong with a record of a trace, or an answer of a log.
// Ruled out: a record called an answer; the words of another fault.
pub fn fault_line(traces: bool, fault: Fault, number: u64, place: u64) -> Line
    ensures { Shows result (fault_line traces fault number place) }
{
    Line::empty()
        .kind(traces, number, place)
        .write(b": ")
        .fault_words(fault)
        .put(10)
}
