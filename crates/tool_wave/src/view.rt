// What is drawn: the pins as driven or not, the request, and the inputs as given.
ghost use Rattle.std.specs.Prelude.{◌≡◌, cond};
ghost use Rattle.tool_wave.specs.View.{none, turned_sck, kept_edge, seven, over};

use until_change::Look;

// Of a queue's last edge: the pins to the end of its clock.
#[derive(Clone, Copy)]
pub struct Kept {
    pub on: bool,
    pub levels: u8,
    pub mask: u8,
}

// `known` after the first record, `given` after the first hold.
#[derive(Clone, Copy, PartialEq, Eq)]
pub struct View {
    pub known: bool,
    pub given: bool,
    pub rxd: bool,
    pub inputs: u8,
    pub look: Look,
}

fn seven(pins: u8, txd: u8) -> u8
    ensures { result ≡ seven pins txd }
{
    pins % 128 + txd / 128 * 128
}

// SCK turned.
fn turned_sck(levels: u8) -> u8
    ensures { result ≡ turned_sck levels }
{
    if levels / 4 % 2 == 1 {
        levels - 4
    } else {
        levels + 4
    }
}

impl Kept {
    // Ruled out: SCK at rest kept; an edge kept after its clock.
    pub fn none() -> Kept
        ensures { result ≡ none }
    {
        Kept {
            on: false,
            levels: 0,
            mask: 0,
        }
    }

    // The pins as they were, with SCK turned, in the clock of a last edge.
    // Ruled out: SCK as it was; PCS let go.
    pub fn edge(ends: bool, l: Look) -> Kept
        ensures { result ≡ cond ends (kept_edge l) none }
    {
        if ends {
            Kept {
                on: true,
                levels: turned_sck(l.levels),
                mask: l.mask,
            }
        } else {
            Kept::none()
        }
    }

    // Ruled out: TXD kept too; a request kept.
    pub fn over(self, l: Look) -> Look
        ensures { result ≡ over self l }
    {
        if self.on {
            Look {
                levels: seven(self.levels, l.levels),
                mask: seven(self.mask, l.mask),
                level: l.level,
                vector: l.vector,
            }
        } else {
            l
        }
    }
}
