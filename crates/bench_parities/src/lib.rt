// Parity in two forms, each over a lent slice of words in a loop of its own, for `bench/parity`.
#![tactic(auto)]

ghost use Rattle.std.specs.Prelude.{◌≡◌};
ghost use Rattle.sci.specs.model.Bits.{odd};
ghost use Rattle.bench_parities.specs.Tally.{tally};

use sci::bits::odd;

// Parity as it was first written: by counting ones.
// Ruled out: even taken for odd; the low bit alone.
pub fn by_count(w: u16) -> bool
    ensures { result ≡ odd w }
{
    u16::count_ones(w) % 2 == 1
}

// How many of the words have an odd number of ones.
// Ruled out: the last word left out; every word counted.
#[unsafe(no_mangle)]
#[tactic(auto, using(crate::proofs::Tallies::further, crate::proofs::Tallies::done))]
pub extern "C" fn odd_by_count(words: &[u16]) -> usize
    ensures { result ≡ tally 0 words.now }
{
    let mut sum: usize = 0;
    for w in words {
        sum += usize::from(by_count(*w));
    }
    sum
}

// The same by the module's table.
// Ruled out: the last word left out; every word counted.
#[unsafe(no_mangle)]
#[tactic(auto, using(crate::proofs::Tallies::further, crate::proofs::Tallies::done))]
pub extern "C" fn odd_by_table(words: &[u16]) -> usize
    ensures { result ≡ tally 0 words.now }
{
    let mut sum: usize = 0;
    for w in words {
        sum += usize::from(odd(*w));
    }
    sum
}
