// The module's own words: QSMCR, QILR and QIVR, PORTQS, PQSPAR and DDRQS.
ghost use Rattle.std.specs.Prelude.{◌≡◌};
ghost use Rattle.qsm.specs.model.Own.{peek_own, put_qsmcr, put_interrupts, put_portqs, put_directions, put_own, own_unmodelled};

use crate::map::OwnWord;
use crate::pins::outputs_of;
use crate::state::Module;
use steps::{merge, word};

#[tactic(auto, unfolding(crate::specs::model::Own::peek_own))]
fn portqs_word(m: Module) -> u16
    ensures { result ≡ peek_own m OwnWord.Portqs }
{
    let o = outputs_of(m);
    word(0, o.portqs_read(m.inputs))
}

impl Module {
    // Ruled out: every read answered 0; byte 14 read as PORTQS.
    pub fn peek_own(self, w: OwnWord) -> u16
        ensures { result ≡ peek_own self w }
    {
        match w {
            OwnWord::Qsmcr => self.qsmcr,
            OwnWord::QilrQivr => word(self.qilr, self.qivr),
            OwnWord::Portqs => portqs_word(self),
            OwnWord::PqsparDdrqs => word(self.pqspar, self.ddrqs),
        }
    }

    fn put_qsmcr(mut self, v: u16, upper: bool, lower: bool) -> Module
        ensures { result ≡ put_qsmcr self v upper lower }
    {
        let w = merge(self.qsmcr, v, upper, lower);
        self.qsmcr = w / 128 % 2 * 128 + w % 16;
        self
    }

    fn put_interrupts(mut self, v: u16, upper: bool, lower: bool) -> Module
        ensures { result ≡ put_interrupts self v upper lower }
    {
        let w = merge(word(self.qilr, self.qivr), v, upper, lower);
        self.qilr = (w / 256 % 64) as u8;
        self.qivr = (w % 256 / 2 * 2 + 1) as u8;
        self
    }

    fn put_portqs(mut self, v: u16, lower: bool) -> Module
        ensures { result ≡ put_portqs self v lower }
    {
        self.portqs = steps::choose(lower, steps::lower_byte(v), self.portqs);
        self
    }

    fn put_directions(mut self, v: u16, upper: bool, lower: bool) -> Module
        ensures { result ≡ put_directions self v upper lower }
    {
        let w = merge(word(self.pqspar, self.ddrqs), v, upper, lower);
        self.pqspar = (w / 0x800 % 16 * 8 + w / 256 % 4) as u8;
        self.ddrqs = (w % 256) as u8;
        self
    }

    // A write of a word's bytes, with no test. Bits that don't exist are dropped.
    // Ruled out: a write ignored; PQSPAR and DDRQS swapped.
    pub fn put_own(self, w: OwnWord, v: u16, upper: bool, lower: bool) -> Module
        ensures { result ≡ put_own self w v upper lower }
    {
        match w {
            OwnWord::Qsmcr => self.put_qsmcr(v, upper, lower),
            OwnWord::QilrQivr => self.put_interrupts(v, upper, lower),
            OwnWord::Portqs => self.put_portqs(v, lower),
            OwnWord::PqsparDdrqs => self.put_directions(v, upper, lower),
        }
    }
}

// Refusal 3: STOP and FRZ.
// Ruled out: FRZ let through; a write of QSMCR's lower byte asked.
#[tactic(auto, unfolding(crate::specs::model::Own::own_unmodelled))]
pub fn own_unmodelled(w: OwnWord, v: u16, upper: bool) -> bool
    ensures { result ≡ own_unmodelled w v upper }
{
    match w {
        OwnWord::Qsmcr => upper & (v / 0x2000 % 8 != 0),
        OwnWord::QilrQivr | OwnWord::Portqs | OwnWord::PqsparDdrqs => false,
    }
}
