// The register map: an offset decoded into a word of the module's own registers, of the serial half, of the queue half, or a hole.
ghost use Rattle.std.specs.Prelude.{◌≡◌};
ghost use Rattle.qsm.specs.model.Map.{decode, mapped, own_restricted, restricted};

#[derive(Clone, Copy)]
pub enum OwnWord {
    Qsmcr,
    QilrQivr,
    Portqs,
    PqsparDdrqs,
}

#[derive(Clone, Copy)]
pub enum SerialWord {
    Sccr0,
    Sccr1,
    Scsr,
    Scdr,
}

// SPCR3 stands in the upper byte of its word, SPSR in the lower. The RAM words are numbered from 0 in each block.
#[derive(Clone, Copy)]
pub enum QueueWord {
    Spcr0,
    Spcr1,
    Spcr2,
    Spcr3Spsr,
    Receive(u8),
    Transmit(u8),
    Command(u8),
}

#[derive(Clone, Copy)]
pub enum Place {
    Own(OwnWord),
    Serial(SerialWord),
    Queue(QueueWord),
    Hole,
}

// The word that holds the byte at an offset, by the offset of its upper byte. Byte 14 is in the map beside PORTQS.
// Ruled out: a hole beside a register taken for it; the last byte of a block taken for the next.
pub fn decode(offset: u32) -> Place
    ensures { result ≡ decode offset }
{
    let word = offset / 2 * 2;
    match word {
        0x00 => Place::Own(OwnWord::Qsmcr),
        0x04 => Place::Own(OwnWord::QilrQivr),
        0x08 => Place::Serial(SerialWord::Sccr0),
        0x0A => Place::Serial(SerialWord::Sccr1),
        0x0C => Place::Serial(SerialWord::Scsr),
        0x0E => Place::Serial(SerialWord::Scdr),
        0x14 => Place::Own(OwnWord::Portqs),
        0x16 => Place::Own(OwnWord::PqsparDdrqs),
        0x18 => Place::Queue(QueueWord::Spcr0),
        0x1A => Place::Queue(QueueWord::Spcr1),
        0x1C => Place::Queue(QueueWord::Spcr2),
        0x1E => Place::Queue(QueueWord::Spcr3Spsr),
        0x100..=0x11F => Place::Queue(QueueWord::Receive(((word - 0x100) / 2) as u8)),
        0x120..=0x13F => Place::Queue(QueueWord::Transmit(((word - 0x120) / 2) as u8)),
        0x140..=0x14F => Place::Queue(QueueWord::Command(((word - 0x140) / 2) as u8)),
        _ => Place::Hole,
    }
}

// Ruled out: a hole in the map; byte 14 not in it.
pub fn mapped(p: Place) -> bool
    ensures { result ≡ mapped p }
{
    !matches!(p, Place::Hole)
}

fn own_restricted(w: OwnWord) -> bool
    ensures { result ≡ own_restricted w }
{
    matches!(w, OwnWord::Qsmcr | OwnWord::QilrQivr)
}

// QSMCR, QILR and QIVR: never a user's.
// Ruled out: SCCR0 restricted; QIVR open.
pub fn restricted(p: Place) -> bool
    ensures { result ≡ restricted p }
{
    match p {
        Place::Own(w) => own_restricted(w),
        Place::Serial(_) | Place::Queue(_) | Place::Hole => false,
    }
}
