// The words of a command, and a name made of two texts.
ghost use Rattle.std.specs.Prelude.{◌≡◌};
ghost use Rattle.io.specs.Counts.{IsPrefixLen};
ghost use Rattle.files.specs.Words.{same, is_option, kind, joined, joined_length};

// What a word of a command is: --help, --version, the first or the second option that the program knows, another option, or none, as a file's name or
// a number.
#[derive(Clone, Copy, PartialEq, Eq)]
pub enum Word {
    Help,
    Version,
    First,
    Second,
    Unknown,
    Plain,
}

// Two words have the same bytes.
// Ruled out: a word taken for another one that begins it, or that it begins.
pub fn same(a: &[u8], b: &[u8]) -> bool
    ensures { result ≡ same a.now b.now }
{
    a == b
}

// An option begins with a minus sign; that sign alone is none.
// Ruled out: the name of standard input taken for an option; an option taken for a file's name.
#[tactic(auto, unfolding(crate::specs::Words::is_option))]
pub fn is_option(word: &[u8]) -> bool
    ensures { result ≡ is_option word.now }
{
    if word.len() < 2 {
        return false;
    }
    word[0] == b'-'
}

// Ruled out: an option that the program doesn't know taken for one that it knows; an option taken for a file's name.
pub fn kind(word: &[u8], help: &[u8], version: &[u8], first: &[u8], second: &[u8]) -> Word
    ensures { result ≡ kind word.now help.now version.now first.now second.now }
{
    if !is_option(word) {
        return Word::Plain;
    }
    if same(word, help) {
        return Word::Help;
    }
    if same(word, version) {
        return Word::Version;
    }
    if same(word, first) {
        return Word::First;
    }
    if same(word, second) {
        return Word::Second;
    }
    Word::Unknown
}

// Two texts, one behind the other, at the start of a buffer, and how long they are; nothing where they don't fit.
// Ruled out: a name cut short, which names another file; the buffer changed behind the texts.
pub fn join(a: &[u8], b: &[u8], buf: &mut [u8]) -> usize
    ensures prefix_len { IsPrefixLen result buf.new }
    ensures value { result ≡ joined_length a.now b.now buf.old }
    ensures buf_after { buf.new ≡ joined a.now b.now buf.old }
{
    let n = a.len();
    if n > buf.len() {
        return 0;
    }
    if b.len() > buf.len() - n {
        return 0;
    }
    let end = n + b.len();
    buf[..n].copy_from_slice(a);
    buf[n..end].copy_from_slice(b);
    end
}
