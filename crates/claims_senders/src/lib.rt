// A sender that is not exact is heard word by word: off-rate, with jitter, at any phase, with or without pauses. Over a module's events:
// claims_through.
#![tactic(auto)]

ghost use Rattle.std.specs.Prelude.{◌≡◌, true};
ghost use Rattle.claims_senders.specs.Heard.{FramesHeard};
ghost use Rattle.claims_senders.specs.Witness.{Played};
ghost use Rattle.claims_senders.specs.Clocks.{ClocksHeard};
ghost use Rattle.claims_senders.specs.Rates.{BitTimes, Rates};

// In samples: frames of any number of bits in which no change is more than 6 samples early or 7 late, counted from the start and from every
// fall, are the frames that end, each with its word, no noise and a stop bit; when they end, and how far apart. Played: each figure is reached,
// and with less asked words come wrong, with noise or with a stop bit read as zero.
// Ruled out: a change 8 samples late; one 7 early; the last fall alone, or the start alone, for the counts.
pub fn frames_heard() -> bool
    ensures { (result ≡ true) × FramesHeard × Played }
{
    true
}

// In clocks, whatever the phase of the prescaler.
// Ruled out: a bound that holds in clocks and is passed in samples.
pub fn clocks_heard() -> bool
    ensures { (result ≡ true) × ClocksHeard }
{
    true
}

// How long bits may last; how far edges may be from their places; and a rate whose edges are rounded to clocks.
// Ruled out: ten bits of 153 samples; nine bits of 152.
pub fn bit_times() -> bool
    ensures { (result ≡ true) × BitTimes × Rates }
{
    true
}
