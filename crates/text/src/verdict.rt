// The line that says how two logs compare. Its first word is equal, differ or refused.
ghost use Rattle.std.specs.Prelude.{◌≡◌};
ghost use Rattle.text.specs.Line.{puts, Shows};
ghost use Rattle.text.specs.Verdict.{equal_line, more, differ_line, why, refused_line, expected, other_line};

use crate::line::Line;
use crate::log::foreign_kind;

// Ruled out: another number; another first word.
pub fn equal_line(answers: u64) -> Line
    ensures { Shows result (equal_line answers) }
{
    Line::empty()
        .write(b"equal: ")
        .decimal(20, answers)
        .write(b" answers")
        .put(10)
}

impl Line {
    // How many answers the log with that letter has more.
    fn more(self, letter: u8, n: u64) -> Line
        ensures { result ≡ puts self (more letter n) }
    {
        if n == 0 {
            return self;
        }
        self.write(b"; ")
            .put(letter)
            .write(b" has ")
            .decimal(20, n)
            .write(b" more")
    }

    fn why(self, refusal: u8) -> Line
        ensures { result ≡ puts self (why refusal) }
    {
        match refusal {
            6 => self.write(b", a log ends within an answer"),
            7 => self.write(b", the list is too short"),
            _ => self,
        }
    }

    // What an answer of that kind should begin with; of no kind, either.
    fn expected(self, kind: u8) -> Line
        ensures { result ≡ puts self (expected kind) }
    {
        if foreign_kind(kind) {
            self.write(b"10 or 11")
        } else {
            self.hex_byte(kind)
        }
    }
}

// So many of the answers that both logs have differ; what each has more.
// Ruled out: the counts exchanged; the surplus of A said to be B's.
pub fn differ_line(differing: u64, answers: u64, first: u64, second: u64) -> Line
    ensures { Shows result (differ_line differing answers first second) }
{
    Line::empty()
        .write(b"differ: ")
        .decimal(20, differing)
        .write(b" of ")
        .decimal(20, answers)
        .write(b" answers")
        .more(65, first)
        .more(66, second)
        .put(10)
}

// Ruled out: the words of another refusal; no number.
pub fn refused_line(refusal: u8) -> Line
    ensures { Shows result (refused_line refusal) }
{
    Line::empty()
        .write(b"refused: refusal ")
        .decimal(3, refusal as u64)
        .why(refusal)
        .put(10)
}

// Refusal 5: an answer of the log with that letter begins with a byte that is not the logs' kind.
// Ruled out: number and place exchanged; the kind in place of the byte.
pub fn other_line(letter: u8, answer: u64, place: u64, byte: u8, kind: u8) -> Line
    ensures { Shows result (other_line letter answer place byte kind) }
{
    Line::empty()
        .write(b"refused: refusal 5, ")
        .put(letter)
        .write(b": ")
        .located(b"answer ", answer, place)
        .write(b" begins with hex ")
        .hex_byte(byte)
        .write(b", not hex ")
        .expected(kind)
        .put(10)
}
