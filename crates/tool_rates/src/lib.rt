// How far off a sender may be, and how long a word may wait in SCDR, for given settings. claims_text has the theorems that these figures are of.
#![tactic(auto)]

ghost use Rattle.std.specs.Prelude.{Bool, true, false, cond, ◌≡◌, ◌+◌, ◌-◌, ◌*◌, ◌≤◌, eqb, ltb, leb};
ghost use Rattle.tool_rates.specs.Rates.{sample_of, apart, deadline_of, own_bit, not_early, not_late, hundredths, tolerance_of};

// Whether a text at a rate is heard word by word; whether its bits are shorter than the receiver's; and by how many hundredths of a percent they
// are off, rounded down.
#[derive(Clone, Copy)]
pub struct Rate {
    pub heard: bool,
    pub short: bool,
    pub error: u64,
}

// The clocks of a sample.
fn sample(sccr0: u16) -> u64
    ensures { (result ≡ sample_of sccr0) × (result ≤ 16382) }
{
    2 * (sccr0 % 8192) as u64
}

fn samples_apart(nine: bool, fair: bool) -> u64
    ensures { (result ≡ apart nine fair) × (result ≤ 164) }
{
    if fair {
        if nine { 164 } else { 148 }
    } else {
        if nine { 122 } else { 112 }
    }
}

// The clocks that a word may wait, this one excluded, so that no frame is lost: on any line, or of a sender that is heard.
// Ruled out: a figure that a frame is lost at.
pub fn deadline(sccr0: u16, nine: bool, fair: bool) -> u64
    ensures { result ≡ deadline_of sccr0 nine fair }
{
    let samples = samples_apart(nine, fair);
    let clocks = sample(sccr0);
    samples * clocks
}

// So many samples at a baud rate.
fn times(samples: u64, sccr0: u16, baud: u32) -> u64
    requires { samples ≤ 170 }
    ensures { (result ≡ samples * sample_of sccr0 * baud) × (result ≤ samples * 16382 * 4294967296) }
{
    let clocks = sample(sccr0);
    samples * clocks * baud as u64
}

fn not_early(clock: u32, baud: u32, sccr0: u16, nine: bool) -> bool
    ensures { result ≡ not_early clock baud sccr0 nine }
{
    if nine {
        let least = times(170, sccr0, baud);
        return least + baud as u64 <= 11 * clock as u64;
    }
    let least = times(154, sccr0, baud);
    least + baud as u64 <= 10 * clock as u64
}

fn not_late(clock: u32, baud: u32, sccr0: u16, nine: bool) -> bool
    ensures { result ≡ not_late clock baud sccr0 nine }
{
    if nine {
        let most = times(167, sccr0, baud);
        return 10 * clock as u64 + baud as u64 <= most;
    }
    let most = times(151, sccr0, baud);
    9 * clock as u64 + baud as u64 <= most
}

fn error(clock: u32, own: u64) -> u64
    requires { own ≤ 16 * 16382 * 4294967296 }
    ensures { result ≡ hundredths clock own }
{
    if own == 0 {
        return 0;
    }
    (clock as u64).abs_diff(own) * 10000 / own
}

// A sender of a baud rate, from a clock of so many hertz, with each edge rounded to a clock, to a receiver with that SCCR0 and M.
// Ruled out: a rate called good at which a word comes wrong or a start is missed.
pub fn tolerance(clock: u32, baud: u32, sccr0: u16, nine: bool) -> Rate
    ensures { result ≡ tolerance_of clock baud sccr0 nine }
{
    let own = times(16, sccr0, baud);
    let early = not_early(clock, baud, sccr0, nine);
    let late = not_late(clock, baud, sccr0, nine);
    let error = error(clock, own);
    Rate {
        heard: (0 < own) & early & late,
        short: (clock as u64) < own,
        error,
    }
}
