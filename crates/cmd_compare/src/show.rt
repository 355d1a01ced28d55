// The differing answers of two pieces as text: a line for each field that differs.
ghost use Rattle.std.specs.Prelude.{◌≡◌, ◌*◌, ◌/◌, min, length, drop};
ghost use Rattle.answers.specs.Answer.{stride_of};
ghost use Rattle.answers.specs.Field.{in_their_order};
ghost use Rattle.text.specs.Log.{logged_at};
ghost use Rattle.console.specs.Output.{Gives};
ghost use Rattle.cmd_compare.specs.Lines.{differs, field_line, first_half, second_half, answer_lines, pair_lines, list_lines};

use answers::Field;
use console::output::{Out, put_line};
use files::pieces::counted;
use files::system::Sink;
use text::difference::difference_line;
use text::log::{Logged, logged_at};
use tool_compare::kinds::stride_of;

// Whether a sum of 1, 2, 4 and so on names a field.
fn differs(sum: u64, f: Field) -> bool
    ensures { result ≡ differs sum f }
{
    match f {
        Field::Kind => sum % 2 == 1,
        Field::Refusal => sum / 2 % 2 == 1,
        Field::Value => sum / 4 % 2 == 1,
        Field::Levels => sum / 8 % 2 == 1,
        Field::Mask => sum / 16 % 2 == 1,
        Field::Level => sum / 32 % 2 == 1,
        Field::Vector => sum / 64 % 2 == 1,
        Field::Clock => sum / 128 % 2 == 1,
    }
}

#[tactic(auto, using(console::proofs::Lines::given_if, console::proofs::Lines::given_not), unfolding(crate::specs::Lines::field_line))]
fn put_field(
    to: &Sink,
    out: Out,
    buf: &mut [u8],
    n: u64,
    sum: u64,
    f: Field,
    x: Logged,
    y: Logged,
) -> Out
    ensures { Gives out buf.old (field_line n sum x y f) result buf.new }
{
    if differs(sum, f) {
        return put_line(to, out, buf, difference_line(n, f, x, y));
    }
    out
}

#[tactic(auto, using(crate::proofs::Giving::four))]
fn put_first_half(
    to: &Sink,
    out: Out,
    buf: &mut [u8],
    n: u64,
    sum: u64,
    x: Logged,
    y: Logged,
) -> Out
    ensures { Gives out buf.old (answer_lines n sum x y first_half) result buf.new }
{
    let kind = put_field(to, out, buf, n, sum, Field::Kind, x, y);
    let refusal = put_field(to, kind, buf, n, sum, Field::Refusal, x, y);
    let value = put_field(to, refusal, buf, n, sum, Field::Value, x, y);
    put_field(to, value, buf, n, sum, Field::Levels, x, y)
}

#[tactic(auto, using(crate::proofs::Giving::four))]
fn put_second_half(
    to: &Sink,
    out: Out,
    buf: &mut [u8],
    n: u64,
    sum: u64,
    x: Logged,
    y: Logged,
) -> Out
    ensures { Gives out buf.old (answer_lines n sum x y second_half) result buf.new }
{
    let mask = put_field(to, out, buf, n, sum, Field::Mask, x, y);
    let level = put_field(to, mask, buf, n, sum, Field::Level, x, y);
    let vector = put_field(to, level, buf, n, sum, Field::Vector, x, y);
    put_field(to, vector, buf, n, sum, Field::Clock, x, y)
}

// Answer n, x in the first log and y in the second.
#[tactic(auto, using(crate::proofs::Giving::halves))]
fn put_answer(to: &Sink, out: Out, buf: &mut [u8], n: u64, sum: u64, x: Logged, y: Logged) -> Out
    ensures { Gives out buf.old (answer_lines n sum x y in_their_order) result buf.new }
{
    let half = put_first_half(to, out, buf, n, sum, x, y);
    put_second_half(to, half, buf, n, sum, x, y)
}

// Answer k of a piece of a kind; zeros where it is not there.
fn answer_of(kind: u8, log: &[u8], k: u64) -> Logged
    ensures { result ≡ logged_at (drop (k * stride_of kind) log.now) }
{
    let stride = stride_of(kind);
    let n = log.len() / stride;
    if k <= n as u64 {
        let at = k as usize * stride;
        return logged_at(&log[at..]);
    }
    logged_at(&log[..0])
}

// Answer k of two pieces, numbered on from the pieces' first.
fn put_pair(
    to: &Sink,
    out: Out,
    buf: &mut [u8],
    kind: u8,
    first: u64,
    a: &[u8],
    b: &[u8],
    k: u64,
    sum: u64,
) -> Out
    ensures { Gives out buf.old (pair_lines kind first a.now b.now k sum) result buf.new }
{
    let n = counted(first, k as usize);
    put_answer(
        to,
        out,
        buf,
        n,
        sum,
        answer_of(kind, a, k),
        answer_of(kind, b, k),
    )
}

// The answers that a list of so many names.
// Ruled out: a line left out, written twice or out of order; the answers of the two logs exchanged; a field that does not differ.
#[tactic(auto, using(crate::proofs::Giving::starts, crate::proofs::Giving::goes))]
pub fn put_list(
    to: &Sink,
    out: Out,
    buf: &mut [u8],
    kind: u8,
    first: u64,
    a: &[u8],
    b: &[u8],
    list: &[u64],
    count: u64,
) -> Out
    ensures { Gives out buf.old (list_lines kind first a.now b.now list.now (min count (length list.now / 2))) result buf.new }
{
    let n = (count as usize).min(list.len() / 2);
    let mut given = out;
    for i in 0..n {
        let at = 2 * i;
        given = put_pair(to, given, buf, kind, first, a, b, list[at], list[at + 1]);
    }
    given
}
