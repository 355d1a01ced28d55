// The words of the serial half: read, what a read leaves, write, and what a write is refused for.
ghost use Rattle.std.specs.Prelude.{◌≡◌, cond};
ghost use Rattle.sci.specs.model.Serial.{status_read, data_read};
ghost use Rattle.qsm.specs.model.Serial.{peek_serial, serial_read, put_serial, serial_unmodelled, serial_guarded};

use crate::map::SerialWord;
use sci::serial::Sci;

// Ruled out: every read answered 0; SCSR for SCDR.
#[tactic(auto, unfolding(crate::specs::model::Serial::peek_serial))]
pub fn peek_serial(s: Sci, w: SerialWord) -> u16
    ensures { result ≡ peek_serial s w }
{
    match w {
        SerialWord::Sccr0 => s.sccr0(),
        SerialWord::Sccr1 => s.sccr1(),
        SerialWord::Scsr => s.scsr(),
        SerialWord::Scdr => s.scdr(),
    }
}

// What a read leaves that touches SCSR, SCDR's low byte, or both: status, then data.
// Ruled out: RDRF left set after both; a status read that makes nothing seen.
#[tactic(auto, unfolding(crate::specs::model::Serial::serial_read))]
pub fn serial_read(s: Sci, status: bool, low: bool) -> Sci
    ensures { result ≡ serial_read status low s }
{
    data_read(status_read(s, status), low)
}

fn status_read(s: Sci, status: bool) -> Sci
    ensures { result ≡ cond status (status_read s) s }
{
    if status { s.status_read() } else { s }
}

fn data_read(s: Sci, low: bool) -> Sci
    ensures { result ≡ cond low (data_read s) s }
{
    if low { s.data_read() } else { s }
}

// A write of a word's bytes, with no test. A write of SCSR does nothing.
// Ruled out: SCSR written; SCCR1's bytes swapped.
#[tactic(auto, unfolding(crate::specs::model::Serial::put_serial))]
pub fn put_serial(s: Sci, w: SerialWord, v: u16, upper: bool, lower: bool) -> Sci
    ensures { result ≡ put_serial s w v upper lower }
{
    match w {
        SerialWord::Sccr0 => s.write_sccr0(v, upper, lower),
        SerialWord::Sccr1 => s.write_sccr1(v, upper, lower),
        SerialWord::Scsr => s,
        SerialWord::Scdr => s.data_write(v, upper, lower),
    }
}

// Refusal 3.
// Ruled out: LOOPS let through; SBK asked of the upper byte.
#[tactic(auto, unfolding(crate::specs::model::Serial::serial_unmodelled))]
pub fn serial_unmodelled(w: SerialWord, v: u16, upper: bool, lower: bool) -> bool
    ensures { result ≡ serial_unmodelled w v upper lower }
{
    match w {
        SerialWord::Sccr1 => sci::control::unmodelled(v, upper, lower),
        SerialWord::Sccr0 | SerialWord::Scsr | SerialWord::Scdr => false,
    }
}

// Refusal 4.
// Ruled out: SCCR0 let through while RE is set; SCDR guarded.
#[tactic(auto, unfolding(crate::specs::model::Serial::serial_guarded))]
pub fn serial_guarded(s: Sci, w: SerialWord, v: u16, upper: bool, lower: bool) -> bool
    ensures { result ≡ serial_guarded s w v upper lower }
{
    match w {
        SerialWord::Sccr0 => s.sccr0_guarded(v, upper, lower),
        SerialWord::Sccr1 => s.sccr1_guarded(v, upper, lower),
        SerialWord::Scsr | SerialWord::Scdr => false,
    }
}
