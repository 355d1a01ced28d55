// A sender that is not exact comes through: over the module's events its words come one by one, with no error flag.
#![tactic(auto)]

ghost use Rattle.std.specs.Prelude.{true, ◌≡◌};
ghost use Rattle.claims_through.specs.Through.{Through};
ghost use Rattle.claims_through.specs.Replayed.{Replayed};

// For every history from reset on, and events after which RE is set and RWU clear: the frames of a fair sender on RXD are those that end, each
// with its word; of the error flags only OR can rise and the figure beside SCDR stays 0; they end 148 samples apart (164 with 9 bits); and
// where each word is delivered before that no frame is lost.
// Ruled out: a frame that is sent and doesn't end; a word lost though each was delivered in time; an access that costs a sample.
pub fn through() -> bool
    ensures { (result ≡ true) × Through }
{
    true
}

// The same of a trace of holds that is replayed with a poll every so many clocks: cutting a hold leaves RXD's levels, so where the trace's levels
// are a fair sender's its words come and none is lost.
// Ruled out: a cut that costs a clock; a poll that takes the receiver off the line.
pub fn replayed() -> bool
    ensures { (result ≡ true) × Replayed }
{
    true
}
