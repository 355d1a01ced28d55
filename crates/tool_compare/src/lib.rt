// Two logs of answers, compared: which answers differ and in which fields, and what the longer log has beyond the common end.
#![tactic(auto)]

ghost use Rattle.std.specs.Prelude.{◌≡◌, cond, ◌++◌, ◌≤◌, ◌<◌, ◌*◌, ◌/◌, length, take, drop};
ghost use Rattle.answers.specs.Answer.{fields, stride};
ghost use Rattle.tool_compare.specs.Answer.{same, sum_of};
ghost use Rattle.tool_compare.specs.Refusals.{number, refusal_in};
ghost use Rattle.tool_compare.specs.Compare.{differing, listed, compared, compared_as, compared_logs, Reports, in_numbers};

use answers::{SIZES, fields_of};
use kinds::{kind_of, mixed, stride_of};

mod claims;
pub mod kinds;

// Whether two parts of one length hold the same bytes.
fn same(x: &[u8], y: &[u8]) -> bool
    requires { length x.now ≡ length y.now }
    ensures { result ≡ same x.now y.now }
{
    x == y
}

// What a field adds to a sum.
fn weighed(alike: bool, weight: u64) -> u64
    ensures { result ≡ cond alike 0 weight }
{
    if alike { 0 } else { weight }
}

// The sum of 1, 2, 4 and so on for those of the first n fields in which two answers differ.
fn sum(n: usize, x: &[u8], y: &[u8]) -> u64
    requires { (n ≤ 8) × (stride (take n fields) ≤ length x.now) × (length x.now ≡ length y.now) }
    ensures { result ≡ sum_of (take n fields) x.now y.now }
{
    let mut sum: u64 = 0;
    let mut weight: u64 = 1;
    let mut start: usize = 0;
    for f in 0..n {
        let end = start + SIZES[f];
        sum += weighed(same(&x[start..end], &y[start..end]), weight);
        weight *= 2;
        start = end;
    }
    sum
}

// The first pass: how many of the first n answers differ.
fn differences(bytes: usize, a: &[u8], b: &[u8], n: usize) -> usize
    requires { (n * bytes ≤ length a.now) × (n * bytes ≤ length b.now) }
    ensures { result ≡ length (differing bytes a.now b.now n) }
{
    let mut count: usize = 0;
    let mut at: usize = 0;
    for i in 0..n {
        let end = at + bytes;
        if !same(&a[at..end], &b[at..end]) {
            count += 1;
        }
        at = end;
    }
    count
}

// The second pass: the number of each and the sum for those of its first k fields that differ, into the list.
fn write(k: usize, bytes: usize, a: &[u8], b: &[u8], n: usize, list: &mut [u64])
    requires k_bound { (k ≤ 8) × (bytes ≡ stride (take k fields)) × (n * bytes ≤ length a.now) × (n * bytes ≤ length b.now) }
    requires n_in_bounds { 2 * length (differing bytes a.now b.now n) ≤ length list.old }
    ensures { list.new ≡ listed (take k fields) a.now b.now (differing bytes a.now b.now n) ++ drop (2 * length (differing bytes a.now b.now n)) list.old }
{
    let mut put: usize = 0;
    let mut at: usize = 0;
    for i in 0..n {
        let end = at + bytes;
        if !same(&a[at..end], &b[at..end]) {
            let s = sum(k, &a[at..end], &b[at..end]);
            list[put] = i as u64;
            list[put + 1] = s;
            put += 2;
        }
        at = end;
    }
}

// Why two logs are not compared: an answer of another kind, a cut answer, a list that is too short.
#[derive(Clone, Copy)]
pub enum Refusal {
    OtherKind,
    CutAnswer,
    ShortList,
}

impl From<Refusal> for u8 {
    ghost from_gives = { λ why n. n ≡ number why };

    fn from(why: Refusal) -> u8 {
        match why {
            Refusal::OtherKind => 5,
            Refusal::CutAnswer => 6,
            Refusal::ShortList => 7,
        }
    }
}

// What a comparison gives beside its list: how many answers differ, its refusal, and what the longer log has past the common end.
#[derive(Clone, Copy)]
pub struct Report<'a> {
    pub count: u64,
    pub refusal: Option<Refusal>,
    pub rest: &'a [u8],
}

// Compares two logs of answers that have the first k fields, and so many bytes.
fn by_fields<'a>(k: usize, bytes: usize, a: &'a [u8], b: &'a [u8], list: &mut [u64]) -> Report<'a>
    requires { (k ≤ 8) × (bytes ≡ stride (take k fields)) × (0 < bytes) }
    ensures { Reports (compared (take k fields) a.now b.now list.old) a.entry.ref_ptr b.entry.ref_ptr list.new result.count (refusal_in result.refusal) result.rest.now result.rest.ref_ptr }
{
    let start = a.len().min(b.len());
    let nothing = Report {
        count: 0,
        refusal: None,
        rest: &a[start..start],
    };
    if a.len() % bytes != 0 {
        return Report {
            refusal: Some(Refusal::CutAnswer),
            ..nothing
        };
    }
    if b.len() % bytes != 0 {
        return Report {
            refusal: Some(Refusal::CutAnswer),
            ..nothing
        };
    }
    let n = (a.len() / bytes).min(b.len() / bytes);
    let differ = differences(bytes, a, b, n);
    if list.len() / 2 < differ {
        return Report {
            refusal: Some(Refusal::ShortList),
            ..nothing
        };
    }
    write(k, bytes, a, b, n, list);
    let count = differ as u64;
    if a.len() < b.len() {
        return Report {
            count,
            refusal: None,
            rest: &b[start..],
        };
    }
    Report {
        count,
        refusal: None,
        rest: &a[start..],
    }
}

// Compares two logs whose answers are to be of a kind. Two numbers for each differing answer go to the front of the list. What the
// longer log has past the common end is handed back beside their count and the refusal.
// Ruled out: a differing answer left out; the list written on a refusal; the stretch of the shorter log; 7 for a cut log, 6 for a mixed one.
pub fn compare_as<'a>(kind: u8, a: &'a [u8], b: &'a [u8], list: &mut [u64]) -> Report<'a>
    ensures { Reports (compared_as kind a.now b.now list.old) a.entry.ref_ptr b.entry.ref_ptr list.new result.count (refusal_in result.refusal) result.rest.now result.rest.ref_ptr }
{
    if mixed(kind, a) | mixed(kind, b) {
        let start = a.len().min(b.len());
        return Report {
            count: 0,
            refusal: Some(Refusal::OtherKind),
            rest: &a[start..start],
        };
    }
    by_fields(fields_of(kind), stride_of(kind), a, b, list)
}

// The same by the logs' own kind, which the first byte of the first that is not empty gives.
// Ruled out: logs of two kinds compared; a first byte that is neither 10 nor 11 let through.
pub fn compare<'a>(a: &'a [u8], b: &'a [u8], list: &mut [u64]) -> Report<'a>
    ensures { Reports (compared_logs a.now b.now list.old) a.entry.ref_ptr b.entry.ref_ptr list.new result.count (refusal_in result.refusal) result.rest.now result.rest.ref_ptr }
{
    compare_as(kind_of(a, b), a, b, list)
}

// What a comparison gives beside its list, in numbers: the stretch is `length` bytes from `start` on, of the second log or of the first.
#[repr(C)]
#[derive(Clone, Copy)]
pub struct Compared {
    pub count: u64,
    pub refusal: u8,
    pub second: bool,
    pub start: usize,
    pub length: usize,
}

// A refusal's number, or 0 for none.
fn number(refusal: Option<Refusal>) -> u8
    ensures { result ≡ refusal_in refusal }
{
    match refusal {
        Some(why) => u8::from(why),
        None => 0,
    }
}

// By a kind, with the stretch in numbers.
// Ruled out: a stretch of the first log where the second is longer; a start or a length of 0 for every stretch.
pub fn compare_numbers_as<'a>(kind: u8, a: &'a [u8], b: &'a [u8], list: &mut [u64]) -> Compared
    ensures { (list.new ≡ (compared_as kind a.now b.now list.old).list) × (result ≡ in_numbers (compared_as kind a.now b.now list.old)) }
{
    let report = compare_as(kind, a, b, list);
    let refusal = number(report.refusal);
    Compared {
        count: report.count,
        refusal,
        second: (refusal == 0) & (a.len() < b.len()),
        start: a.len().min(b.len()),
        length: report.rest.len(),
    }
}

// By the logs' own kind.
// Ruled out: the kind of the second log where the first has one; a kind that is fixed.
pub fn compare_numbers<'a>(a: &'a [u8], b: &'a [u8], list: &mut [u64]) -> Compared
    ensures { (list.new ≡ (compared_logs a.now b.now list.old).list) × (result ≡ in_numbers (compared_logs a.now b.now list.old)) }
{
    compare_numbers_as(kind_of(a, b), a, b, list)
}
