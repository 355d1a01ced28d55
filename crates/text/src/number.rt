// A number from its decimal digits, as a word of a command gives it.
ghost use Rattle.std.specs.Prelude.{◌≡◌};
ghost use Rattle.text.specs.Number.{more, number_of};

// A number with a digit more, if it stays below 2 ^ 64.
fn more(n: u64, b: u8) -> Option<u64>
    ensures { result ≡ more n b }
{
    if !b.is_ascii_digit() {
        return None;
    }
    n.checked_mul(10)?.checked_add((b - b'0') as u64)
}

// Ruled out: an empty word taken for 0; a number that begins anew past 2 ^ 64; digits up to a letter taken.
#[tactic(auto, using(crate::proofs::Numbers::number_none, crate::proofs::Numbers::number_some, crate::proofs::Numbers::after_more, crate::proofs::Numbers::after_none_none, crate::proofs::Numbers::after_all))]
pub fn parse_number(word: &[u8]) -> Option<u64>
    ensures { result ≡ number_of word.now }
{
    if word.is_empty() {
        return None;
    }
    let mut number = 0;
    for b in word {
        number = more(number, *b)?;
    }
    Some(number)
}
