// The words of an access, one after the other: what a read gives and leaves, what a write leaves and is refused for.
ghost use Rattle.std.specs.Prelude.{◌≡◌};
ghost use Rattle.steps.specs.Iterate.{iterate};
ghost use Rattle.qsm.specs.model.Access.{next, fetch, fetched, store, stored};

use crate::map::decode;
use crate::state::Module;

// The words read so far, and the offset of the next.
#[derive(Clone, Copy)]
pub struct Words {
    pub at: u16,
    pub words: u32,
}

// A write under way: the module, the offset of the next word, the words to come, and whether one so far is refused.
#[derive(Clone, Copy)]
pub struct Store {
    pub state: Module,
    pub at: u16,
    pub words: u32,
    pub unmodelled: bool,
    pub guarded: bool,
}

// The offset of the word after this one.
pub(crate) fn next(at: u16) -> u16
    ensures { result ≡ next at }
{
    (((at as u32) + 2) % 0x10000) as u16
}

impl Store {
    fn store(self, upper: bool, lower: bool) -> Store
        ensures { result ≡ store upper lower self }
    {
        let m = self.state;
        let p = decode(self.at as u32);
        let v = (self.words / 0x10000) as u16;
        Store {
            state: m.put(p, v, upper, lower),
            at: next(self.at),
            words: self.words % 0x10000 * 0x10000,
            unmodelled: self.unmodelled | m.unmodelled(p, v, upper, lower),
            guarded: self.guarded | m.guarded(p, v, upper, lower),
        }
    }
}

impl Module {
    // One word more.
    fn fetch(self, w: Words) -> Words
        ensures { result ≡ fetch self w }
    {
        let word = self.peek(decode(w.at as u32));
        Words {
            at: next(w.at),
            words: w.words % 0x10000 * 0x10000 + (word as u32),
        }
    }

    // n words in address order, the first uppermost.
    // Ruled out: the second word first; the first word alone.
    #[tactic(auto, unfolding(crate::specs::model::Access::fetched, steps::specs::Iterate::iterate))]
    pub fn fetched(self, at: u16, n: u8) -> u32
        ensures { result ≡ fetched self at n }
    {
        let mut w = Words { at, words: 0 };
        for _ in 0..n {
            w = self.fetch(w);
        }
        w.words
    }

    // n words written in address order, each tested against what the earlier ones leave.
    // Ruled out: the second word tested against the module before the first; the first alone tested.
    #[tactic(auto, unfolding(crate::specs::model::Access::stored, steps::specs::Iterate::iterate))]
    pub fn stored(self, at: u16, n: u8, words: u32, upper: bool, lower: bool) -> Store
        ensures { result ≡ stored self at n words upper lower }
    {
        let mut s = Store {
            state: self,
            at,
            words,
            unmodelled: false,
            guarded: false,
        };
        for _ in 0..n {
            s = s.store(upper, lower);
        }
        s
    }
}
