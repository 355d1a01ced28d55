// The index of a trace, for hosts in C: marks in the host's numbers, two a mark.
ghost use Rattle.std.specs.Prelude.{◌≡◌};
ghost use Rattle.tool_index.specs.Marks.{built, extended};
ghost use Rattle.tool_index.specs.Find.{looked_up};

use tool_index::find::Found;
use tool_index::index::Indexed;

// The marks of a trace, built afresh.
// Ruled out: a number changed by a refusal; a mark for a record that is cut.
#[unsafe(no_mangle)]
pub extern "C" fn qsm_index_build(trace: &[u8], lent: &mut [u64]) -> Indexed
    ensures { (lent.new ≡ (built trace.now lent.old).list) × (result ≡ (built trace.now lent.old).given) }
{
    tool_index::index::build(trace, lent)
}

// The marks of a trace that has grown, of which so many are there.
// Ruled out: a mark that was there written anew; the new marks in front of them.
#[unsafe(no_mangle)]
pub extern "C" fn qsm_index_extend(trace: &[u8], lent: &mut [u64], count: usize) -> Indexed
    ensures { (lent.new ≡ (extended trace.now lent.old count).list) × (result ≡ (extended trace.now lent.old count).given) }
{
    tool_index::index::extend(trace, lent, count)
}

// Where a record starts, by so many marks.
// Ruled out: the mark's own place for every record behind it; a record past the end found.
#[unsafe(no_mangle)]
pub extern "C" fn qsm_index_find<'a>(
    trace: &'a [u8],
    lent: &'a [u64],
    count: usize,
    number: u64,
) -> Found
    ensures { result ≡ looked_up trace.now lent.now count number }
{
    tool_index::find::find(trace, lent, count, number)
}
