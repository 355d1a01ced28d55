// A text that is sent to a receiver at a rate that need not be its own comes byte by byte, and line by line.
#![tactic(auto)]

ghost use Rattle.std.specs.Prelude.{true, ◌≡◌};
ghost use Rattle.claims_text.specs.Text.{TextWords};
ghost use Rattle.claims_text.specs.Lines.{TextLines};
ghost use Rattle.claims_text.specs.Through.{TextThrough};
ghost use Rattle.claims_text.specs.Told.{RatesTold};

// For every history that leaves a receiver ready, and every text as `assemble` makes holds of it, within the rate's bounds: replayed with polls
// no more than 148 samples apart, the words that come are the text's bytes, in order, and no frame is lost.
// Ruled out: a byte that comes wrong, twice or not at all.
pub fn text_words() -> bool
    ensures { (result ≡ true) × TextWords }
{
    true
}

// Where a replay loses no frame and every word comes without a flag, `lines` gives exactly the lines of the words delivered: cut at 0A, numbered
// from 0, the low 7 bits of up to 128 characters, a longer line dropped.
// Ruled out: a line handed over twice, out of turn, or with a character more or less.
pub fn text_lines() -> bool
    ensures { (result ≡ true) × TextLines }
{
    true
}

// For every text, rate, SCBR and period within the bounds: of the trace that sets a receiver up, holds RXD at one, sends the text as `assemble` makes
// holds of it and holds RXD at one for a period, `lines` gives exactly the text's lines. And one order of a cable, by the bounds and not by its clocks.
// Ruled out: a line lost, changed or told twice on the way from RXD's edges to the caller; a last word that is never delivered.
pub fn text_through() -> bool
    ensures { (result ≡ true) × TextThrough }
{
    true
}

// What `tool_rates` tells of settings and rates is what the theorems ask: its deadlines are theirs, and frames at a rate that it calls heard are fair,
// with 8 data bits and with 9.
// Ruled out: a deadline that a frame is lost at; a rate called heard at which a word comes wrong.
pub fn rates_told() -> bool
    ensures { (result ≡ true) × RatesTold }
{
    true
}
