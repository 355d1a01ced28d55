// One module that two drivers share, the axis driver and the spindle driver (02, L11): who reaches what, the claim on the queue's registers, and
// the step from one event to the next. The module below is used by its contracts alone.
#![tactic(auto)]

pub mod calls;
pub mod claims;
pub mod event;
pub mod reach;
pub mod state;
