// Document 02, L8: how often a receiver has to be polled so that no frame is lost.
#![tactic(auto)]

ghost use Rattle.std.specs.Prelude.{true, ◌≡◌};
ghost use Rattle.claims_polling.specs.Spacing.{Spacing};
ghost use Rattle.claims_polling.specs.Rule.{Rule};
ghost use Rattle.claims_polling.specs.Replays.{Replays};

// How many samples apart two frames end at least, where sampling points move and where none does; each figure is reached.
// Ruled out: a frame that ends with fewer bits decided than it has; a stop bit whose RT1 moves.
pub fn spacing() -> bool
    ensures { (result ≡ true) × Spacing }
{
    true
}

// While SCCR0 and SCCR1 stay, a receiver polled at least every so many clocks loses no frame, for every history; and polled a clock later it
// can lose one.
// Ruled out: a poll that leaves RDRF or OR set; a frame that ends sooner after a poll than the rule has it; a period that is too short by a clock.
pub fn rule() -> bool
    ensures { (result ≡ true) × Rule }
{
    true
}

// A replay with a period of that many clocks at most loses no frame while SCCR0 and SCCR1 stay, for every trace.
// Ruled out: a poll that a replay leaves out; a stretch between two polls longer than the period.
pub fn replay_rule() -> bool
    ensures { (result ≡ true) × Replays }
{
    true
}
