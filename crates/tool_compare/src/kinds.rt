// The kind of two logs, 10 or 11: how many bytes an answer of it has, and whether each answer begins with it.
ghost use Rattle.std.specs.Prelude.{◌≡◌};
ghost use Rattle.answers.specs.Answer.{stride_of};
ghost use Rattle.tool_compare.specs.Kind.{kind_of, begun, first_other, mixed};

use answers::{PLAIN, known_kind};

// The bytes of an answer of a kind, which are those of its fields.
// Ruled out: ten for both; eighteen for both.
pub fn stride_of(kind: u8) -> usize
    ensures { result ≡ stride_of kind }
{
    answers::length_of(kind)
}

// The first byte of the first log that is not empty.
// Ruled out: an empty log that hides the kind of the other; the kind of the second log.
pub fn kind_of(a: &[u8], b: &[u8]) -> u8
    ensures { result ≡ kind_of a.now b.now }
{
    if a.len() > 0 {
        return a[0];
    }
    if b.len() > 0 {
        return b[0];
    }
    PLAIN
}

// The answers of a log of a kind, a cut last one too.
// Ruled out: a cut answer left out; one more where none is cut.
pub fn answers_begun(kind: u8, log: &[u8]) -> usize
    ensures { result ≡ begun (stride_of kind) log.now }
{
    let bytes = stride_of(kind);
    log.len().div_ceil(bytes)
}

// The number of the first answer, a cut last one too, that does not begin with the kind, or of any if that is neither 10 nor 11; how many
// answers there are if each does.
// Ruled out: a cut last answer not looked at; a later one; logs of any one kind let through.
pub fn first_other(kind: u8, log: &[u8]) -> usize
    ensures { result ≡ first_other kind log.now (begun (stride_of kind) log.now) }
{
    let n = answers_begun(kind, log);
    let is_known = known_kind(kind);
    let bytes = stride_of(kind);
    let mut at: usize = 0;
    for i in 0..n {
        if !(is_known & (log[at] == kind)) {
            return i;
        }
        at += bytes;
    }
    n
}

// Whether an answer of a log does not begin with the kind.
// Ruled out: a cut last answer not looked at; a kind that is neither 10 nor 11 taken for one.
pub fn mixed(kind: u8, log: &[u8]) -> bool
    ensures { result ≡ mixed kind log.now }
{
    first_other(kind, log) < answers_begun(kind, log)
}
