// A record's bytes, from its kind and its event.
ghost use Rattle.std.specs.Prelude.{◌≡◌};
ghost use Rattle.steps.specs.Bits.{digit};
ghost use Rattle.tool_assemble.specs.Encode.{width_byte, padded, hold_bytes, long_hold_bytes, read_bytes, write_bytes, access_bytes, record_bytes};

use qsm::event::{Access, Event};

// The bytes of a record, with zeros behind them.
#[derive(Clone, Copy)]
pub struct Encoded {
    pub bytes: [u8; 8],
    pub length: usize,
}

// A width with bit 7 for the supervisor.
fn width_byte(supervisor: bool, width: u8) -> u8
    ensures { result ≡ width_byte supervisor width }
{
    if supervisor {
        return 128 + width % 128;
    }
    width % 128
}

fn rxd_byte(rxd: bool) -> u8
    ensures { result ≡ digit rxd }
{
    rxd as u8
}

fn hold(pins: u8, rxd: bool, clocks: u32) -> Encoded
    ensures { result ≡ padded (hold_bytes pins rxd clocks) }
{
    let [high, low] = ((clocks % 65536) as u16).to_be_bytes();
    Encoded {
        bytes: [2, pins, rxd_byte(rxd), high, low, 0, 0, 0],
        length: 5,
    }
}

#[tactic(auto, using(crate::proofs::Encoding::long_is))]
fn long_hold(pins: u8, rxd: bool, clocks: u32) -> Encoded
    ensures { result ≡ padded (long_hold_bytes pins rxd clocks) }
{
    let [a, b, c, d] = clocks.to_be_bytes();
    Encoded {
        bytes: [5, pins, rxd_byte(rxd), a, b, c, d, 0],
        length: 7,
    }
}

fn read(supervisor: bool, width: u8, offset: u16) -> Encoded
    ensures { result ≡ padded (read_bytes supervisor width offset) }
{
    let [high, low] = offset.to_be_bytes();
    Encoded {
        bytes: [3, width_byte(supervisor, width), high, low, 0, 0, 0, 0],
        length: 4,
    }
}

#[tactic(auto, using(crate::proofs::Encoding::long_is))]
fn write(supervisor: bool, width: u8, offset: u16, value: u32) -> Encoded
    ensures { result ≡ padded (write_bytes supervisor width offset value) }
{
    let [high, low] = offset.to_be_bytes();
    let [a, b, c, d] = value.to_be_bytes();
    Encoded {
        bytes: [4, width_byte(supervisor, width), high, low, a, b, c, d],
        length: 8,
    }
}

fn access(a: Access) -> Encoded
    ensures { result ≡ padded (access_bytes a) }
{
    match a {
        Access::Read(supervisor, width, offset) => read(supervisor, width, offset),
        Access::Write(supervisor, width, offset, value) => {
            write(supervisor, width, offset, value)
        }
    }
}

// A record's bytes.
// Ruled out: the low byte first; a long hold as a 02; the supervisor's bit lost.
pub fn encode(kind: u8, e: Event) -> Encoded
    ensures { result ≡ padded (record_bytes kind e) }
{
    match e {
        Event::Reset => Encoded {
            bytes: [1, 0, 0, 0, 0, 0, 0, 0],
            length: 1,
        },
        Event::Hold(pins, rxd, clocks) => {
            if kind == 5 {
                long_hold(pins, rxd, clocks)
            } else {
                hold(pins, rxd, clocks)
            }
        }
        Event::Access(a) => access(a),
    }
}
