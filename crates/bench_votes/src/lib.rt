// The vote over three samples in two forms, each over a lent slice of triples in a loop of its own, for `bench/vote`.
#![tactic(auto)]

ghost use Rattle.std.specs.Prelude.{◌≡◌};
ghost use Rattle.sci.specs.model.Bits.{vote};
ghost use Rattle.bench_votes.specs.Tally.{number, added, tally};

use sci::bits::Voted;

// The vote as it was first written: by the pairs of samples that agree.
// Ruled out: two zeros and a one read as a one; a vote that never disagrees.
pub fn by_pairs(a: bool, b: bool, c: bool) -> Voted
    ensures { result ≡ vote a b c }
{
    Voted {
        bit: (a & b) | (a & c) | (b & c),
        disagreed: u8::from((a | b | c) & !(a & b & c)),
    }
}

// A vote as a number.
fn number(v: Voted) -> u16
    ensures { result ≡ number v }
{
    (v.disagreed as u16) * 2 + u16::from(v.bit)
}

// One more vote, in 32 bits.
fn added(sum: u64, v: Voted) -> u64
    ensures { result ≡ added sum v }
{
    (sum % 4294967296 + (number(v) as u64)) % 4294967296
}

// The sum over triples, each in the low three bits of a byte.
// Ruled out: the last triple left out; a sum of the bytes.
#[unsafe(no_mangle)]
#[tactic(auto, using(crate::proofs::Tallies::further, crate::proofs::Tallies::done))]
pub extern "C" fn vote_by_pairs(triples: &[u8]) -> u64
    ensures { result ≡ tally 0 triples.now }
{
    let mut sum: u64 = 0;
    for t in triples {
        sum = added(sum, by_pairs(*t % 2 == 1, *t / 2 % 2 == 1, *t / 4 % 2 == 1));
    }
    sum
}

// The same by the receiver's vote.
// Ruled out: the last triple left out; a sum of the bytes.
#[unsafe(no_mangle)]
#[tactic(auto, using(crate::proofs::Tallies::further, crate::proofs::Tallies::done))]
pub extern "C" fn vote_by_count(triples: &[u8]) -> u64
    ensures { result ≡ tally 0 triples.now }
{
    let mut sum: u64 = 0;
    for t in triples {
        sum = added(
            sum,
            sci::bits::vote(*t % 2 == 1, *t / 2 % 2 == 1, *t / 4 % 2 == 1),
        );
    }
    sum
}
