// The options of a command: what kind a word is, by the names that the command knows.
ghost use Rattle.std.specs.Prelude.{◌≡◌};
ghost use Rattle.shell.specs.Options.{bytes_of, place, position, named, kind_of};

use files::words::{is_option, same};

// A word is none, as a file's name; -h or --help; --version; --, behind which no word is an option; an option that stands alone or one that a value
// follows, by its number in the command's list; or an option that the command doesn't know.
#[derive(Clone, Copy, PartialEq, Eq)]
pub enum Kind {
    Plain,
    Help,
    Version,
    End,
    Flag(u8),
    Valued(u8),
    Unknown,
}

// The number, from 0, of the first name that a word is.
fn place(word: &[u8], names: &[&[u8]]) -> Option<usize>
    ensures { result ≡ place word.now (bytes_of names.now) }
{
    names.iter().position(|name| same(word, name))
}

// The number, from 0, of the name that a word is; none where it is none of the first 16.
// Ruled out: the beginning of a name taken for it; the number of another name.
pub fn position(word: &[u8], names: &[&[u8]]) -> Option<u8>
    ensures { result ≡ position word.now (bytes_of names.now) }
{
    match place(word, names) {
        Some(k) if k < 16 => Some(k as u8),
        _ => None,
    }
}

// By its number among the options of every command, among those that stand alone, and among those that a value follows.
fn named(common: Option<u8>, flag: Option<u8>, valued: Option<u8>) -> Kind
    ensures { result ≡ named common flag valued }
{
    match (common, flag, valued) {
        (Some(0), _, _) => Kind::Help,
        (Some(1), _, _) => Kind::Help,
        (Some(2), _, _) => Kind::Version,
        (Some(3), _, _) => Kind::End,
        (_, Some(k), _) => Kind::Flag(k),
        (_, None, Some(k)) => Kind::Valued(k),
        (_, None, None) => Kind::Unknown,
    }
}

// What a word is. The options of every command are -h, --help, --version and --, in this order.
// Ruled out: an option that the command doesn't know taken for one that it knows; an option taken for a file's name.
pub fn kind_of(word: &[u8], common: &[&[u8]], flags: &[&[u8]], valued: &[&[u8]]) -> Kind
    ensures { result ≡ kind_of word.now (bytes_of common.now) (bytes_of flags.now) (bytes_of valued.now) }
{
    if !is_option(word) {
        return Kind::Plain;
    }
    named(
        position(word, common),
        position(word, flags),
        position(word, valued),
    )
}
