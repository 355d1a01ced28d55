// Numbers in digits.
ghost use Rattle.std.specs.Prelude.{◌≡◌, ◌+◌, ◌<◌, ◌≤◌, length};
ghost use Rattle.tool_assemble.specs.Scan.{digit_of, limit, takes, digits};

use crate::scan::Figures;

// The digit that a byte is, or 16.
pub(crate) fn digit_of(b: u8) -> u8
    ensures { result ≡ digit_of b }
{
    match b {
        b'0'..=b'9' => b - b'0',
        b'A'..=b'F' => b - b'A' + 10,
        b'a'..=b'f' => b - b'a' + 10,
        _ => 16,
    }
}

// The first number that is too big for a field.
pub(crate) fn limit(c: u8) -> u64
    ensures value { result ≡ limit c }
    ensures upper_bound { result ≤ 4294967296 }
{
    match c {
        1 => 256,
        2 | 6 => 65536,
        4 => 2,
        5 => 128,
        _ => 4294967296,
    }
}

// Whether a digit belongs to a number of a base that is to stay below a limit.
#[tactic(auto, unfolding(crate::specs::Scan::takes))]
fn takes(base: u64, most: u64, n: u64, b: u8) -> bool
    requires { (base < 17) × (n < 4294967296) }
    ensures { result ≡ takes base most n b }
{
    let d = digit_of(b) as u64;
    d < base && n * base + d < most
}

// The number of a base, below a limit, that a text begins with.
#[tactic(auto, using(crate::proofs::Reading::digits_at, crate::proofs::Reading::digits_end, crate::proofs::Reading::takes_below, crate::proofs::Reading::end))]
pub(crate) fn digits(base: u64, most: u64, text: &[u8]) -> Figures
    requires { (base < 17) × (most ≤ 4294967296) }
    ensures value { result ≡ digits base most 0 0 text.now }
    ensures length_in_bounds { result.length ≤ length text.now }
{
    let mut value = 0;
    for (length, b) in text.iter().enumerate() {
        if !takes(base, most, value, *b) {
            return Figures { value, length };
        }
        value = value * base + digit_of(*b) as u64;
    }
    Figures {
        value,
        length: text.len(),
    }
}
