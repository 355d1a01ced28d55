// What a sample does in a bit of a frame, by its RT: the start bit is judged and heard, data bits are voted on and collected, the stop bit ends it.
ghost use Rattle.std.specs.Prelude.{◌≡◌};
ghost use Rattle.sci.specs.model.Control.{bits_of};
ghost use Rattle.sci.specs.model.Framer.{noise_at, judged, heard, start_bit, collected, data_bit, stop_bit, in_bit};

use crate::bits::vote;
use crate::framer::Framer;

impl Framer {
    // RT rt, with so much more noise.
    fn noise_at(mut self, rt: u8, by: u8) -> Framer
        ensures { result ≡ noise_at self rt by }
    {
        self.rt = rt;
        self.noise = self.noise.saturating_add(by);
        self
    }

    fn judged(self, abandoned: bool, ones: u8) -> Framer
        ensures { result ≡ judged abandoned self ones }
    {
        if abandoned {
            Framer::searching()
        } else {
            self.noise_at(7, ones)
        }
    }

    // Any one at RT8, RT9, RT10 of the start bit is noise.
    fn heard(mut self, voted: bool, rt: u8, x: bool) -> Framer
        ensures { result ≡ heard voted self rt x }
    {
        if voted {
            self.noise_at(rt, u8::from(x))
        } else {
            self.rt = rt;
            self
        }
    }

    // RT rt of the start bit. Where the vote at RT7 lets it stand, what disagreed is its one, if there is one.
    #[tactic(auto, unfolding(crate::specs::model::Framer::start_bit))]
    fn start_bit(mut self, rt: u8, x: bool) -> Framer
        ensures { result ≡ start_bit self rt x }
    {
        match rt {
            3 => {
                self.rt = rt;
                self.first = x;
                self
            }
            5 => {
                self.rt = rt;
                self.second = x;
                self
            }
            7 => {
                let v = vote(self.first, self.second, x);
                self.judged(v.bit, v.disagreed)
            }
            16 => {
                self.rt = rt;
                self.starting = false;
                self
            }
            _ => self.heard((8 <= rt) & (rt <= 10), rt, x),
        }
    }

    // RT rt of a data bit.
    #[tactic(auto, unfolding(crate::specs::model::Framer::data_bit))]
    fn data_bit(mut self, rt: u8, x: bool, m: bool) -> Framer
        ensures { result ≡ data_bit (bits_of m) self rt x }
    {
        match rt {
            8 => {
                self.rt = rt;
                self.first = x;
                self
            }
            9 => {
                self.rt = rt;
                self.second = x;
                self
            }
            10 => {
                let v = vote(self.first, self.second, x);
                self.rt = rt;
                self.noise = self.noise.saturating_add(v.disagreed);
                self.shift = collected(v.bit, m, self.shift);
                self
            }
            16 => {
                self.rt = rt;
                self.left = self.left.saturating_sub(1);
                self.moved = false;
                self
            }
            _ => {
                self.rt = rt;
                self
            }
        }
    }

    // RT rt of the stop bit.
    #[tactic(auto, unfolding(crate::specs::model::Framer::stop_bit))]
    fn stop_bit(mut self, rt: u8, x: bool) -> Framer
        ensures { result ≡ stop_bit self rt x }
    {
        match rt {
            8 => {
                self.rt = rt;
                self.first = x;
                self
            }
            9 => {
                self.rt = rt;
                self.second = x;
                self
            }
            10 => Framer::searching(),
            _ => {
                self.rt = rt;
                self
            }
        }
    }

    // RT rt of the bit that the frame is in.
    pub(crate) fn in_bit(self, starting: bool, stopping: bool, rt: u8, x: bool, m: bool) -> Framer
        ensures { result ≡ in_bit starting stopping (bits_of m) self rt x }
    {
        if starting {
            self.start_bit(rt, x)
        } else {
            if stopping {
                self.stop_bit(rt, x)
            } else {
                self.data_bit(rt, x, m)
            }
        }
    }
}

// The bits collected, low bit first, with one more.
fn collected(bit: bool, m: bool, shift: u16) -> u16
    ensures { result ≡ collected bit (bits_of m) shift }
{
    if bit {
        if m { shift / 2 + 256 } else { shift / 2 + 128 }
    } else {
        shift / 2
    }
}
