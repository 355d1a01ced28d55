// The words of a command taken one after the other, each by its place among the arguments and its kind.
ghost use Rattle.std.specs.Prelude.{◌≡◌};
ghost use Rattle.shell.specs.Arguments.{none, flagged, waiting, valued, plain, unknown, helped, versioned, ended, taken, judged};

use crate::options::Kind;

// What was seen so far. Places are numbers of arguments.
#[derive(Clone, Copy)]
pub struct Seen {
    pub help: bool,
    pub version: bool,
    // Behind --, where no word is an option.
    pub ended: bool,
    // The option that waits for its value, by its number.
    pub waits: Option<u8>,
    // The first option that is not known.
    pub unknown: Option<usize>,
    // Words that are no options: up to 8, and 9 for more.
    pub words: usize,
    // The last place of each option that stands alone, and of each option's value; the places of the first words.
    pub flags: [Option<usize>; 16],
    pub values: [Option<usize>; 16],
    pub places: [Option<usize>; 8],
}

// Why a command does not go on. The option that is not known is told by its place.
#[derive(Clone, Copy, PartialEq, Eq)]
pub enum Refusal {
    Help,
    Version,
    Unknown(usize),
    NoValue,
    TooFew,
    TooMany,
}

impl Seen {
    // Ruled out: a word or an option where there is none.
    pub fn none() -> Seen
        ensures { result ≡ none }
    {
        Seen {
            help: false,
            version: false,
            ended: false,
            waits: None,
            unknown: None,
            words: 0,
            flags: [None; 16],
            values: [None; 16],
            places: [None; 8],
        }
    }

    fn flagged(mut self, k: u8, i: usize) -> Seen
        ensures { result ≡ flagged self k i }
    {
        let at = (k % 16) as usize;
        self.flags[at] = Some(i);
        self
    }

    // No option has a number above 15.
    fn waiting(mut self, k: u8) -> Seen
        ensures { result ≡ waiting self k }
    {
        self.waits = if k < 16 { Some(k) } else { None };
        self
    }

    fn valued(mut self, k: u8, i: usize) -> Seen
        ensures { result ≡ valued self k i }
    {
        let at = (k % 16) as usize;
        self.values[at] = Some(i);
        self.waits = None;
        self
    }

    fn plain(mut self, i: usize) -> Seen
        ensures { result ≡ plain self i }
    {
        let at = self.words;
        if at < 8 {
            self.places[at] = Some(i);
            self.words = at + 1;
            return self;
        }
        self.words = 9;
        self
    }

    fn unknown(mut self, i: usize) -> Seen
        ensures { result ≡ unknown self i }
    {
        self.unknown = self.unknown.or(Some(i));
        self
    }

    fn helped(mut self) -> Seen
        ensures { result ≡ helped self }
    {
        self.help = true;
        self
    }

    fn versioned(mut self) -> Seen
        ensures { result ≡ versioned self }
    {
        self.version = true;
        self
    }

    fn ended(mut self) -> Seen
        ensures { result ≡ ended self }
    {
        self.ended = true;
        self
    }

    // One word more.
    // Ruled out: an option taken behind --; a value taken for an option or for a word; a word that is passed over.
    pub fn taken(self, i: usize, kind: Kind) -> Seen
        ensures { result ≡ taken self i kind }
    {
        if let Some(k) = self.waits {
            return self.valued(k, i);
        }
        if self.ended {
            return self.plain(i);
        }
        match kind {
            Kind::Plain => self.plain(i),
            Kind::Help => self.helped(),
            Kind::Version => self.versioned(),
            Kind::End => self.ended(),
            Kind::Flag(k) => self.flagged(k, i),
            Kind::Valued(k) => self.waiting(k),
            Kind::Unknown => self.unknown(i),
        }
    }

    // What all of it comes to, for a command of so many words.
    // Ruled out: a command that goes on without a word that it needs, with one that it won't look at, or with an option that it doesn't know.
    pub fn judged(self, least: usize, most: usize) -> Result<(), Refusal>
        ensures { result ≡ judged self least most }
    {
        if self.help {
            return Err(Refusal::Help);
        }
        if self.version {
            return Err(Refusal::Version);
        }
        if let Some(i) = self.unknown {
            return Err(Refusal::Unknown(i));
        }
        if self.waits.is_some() {
            return Err(Refusal::NoValue);
        }
        if self.words < least {
            return Err(Refusal::TooFew);
        }
        if self.words > most {
            return Err(Refusal::TooMany);
        }
        Ok(())
    }
}
