// SPSR: SPIF, MODF and HALTA, how they are seen and fall, and CPTQP.
ghost use Rattle.std.specs.Prelude.{◌≡◌};
ghost use Rattle.qspi.specs.model.Spsr.{either, without, spsr_byte, flags_seen, falls, falling, fallen};

#[repr(C)]
#[derive(Clone, Copy, PartialEq, Eq)]
pub struct Flags {
    pub spif: bool,
    pub modf: bool,
    pub halta: bool,
}

// The flags that are set, those that a read touching byte 1F saw while they were set, and CPTQP.
#[repr(C)]
#[derive(Clone, Copy, PartialEq, Eq)]
pub struct Spsr {
    pub flags: Flags,
    pub seen: Flags,
    pub cptqp: u8,
}

fn falls(lower: bool, seen: bool, one: bool) -> bool
    ensures { result ≡ falls lower seen one }
{
    lower & seen & !one
}

impl Flags {
    fn either(self, other: Flags) -> Flags
        ensures { result ≡ either self other }
    {
        Flags {
            spif: self.spif | other.spif,
            modf: self.modf | other.modf,
            halta: self.halta | other.halta,
        }
    }

    fn without(self, other: Flags) -> Flags
        ensures { result ≡ without self other }
    {
        Flags {
            spif: self.spif & !other.spif,
            modf: self.modf & !other.modf,
            halta: self.halta & !other.halta,
        }
    }
}

impl Spsr {
    // The byte at 1F.
    // Ruled out: a flag in another place; its mark for a flag.
    pub fn byte(self) -> u8
        ensures { result ≡ spsr_byte self }
    {
        u8::from(self.flags.spif) * 128
            + u8::from(self.flags.modf) * 64
            + u8::from(self.flags.halta) * 32
            + self.cptqp % 16
    }

    // Ruled out: a flag marked that is clear; an older mark forgotten.
    pub fn flags_seen(mut self) -> Spsr
        ensures { result ≡ flags_seen self }
    {
        let flags = self.flags;
        let seen = self.seen;
        self.seen = seen.either(flags);
        self
    }

    // The flags that a write of v makes fall.
    fn falling(self, v: u16, lower: bool) -> Flags
        ensures { result ≡ falling self v lower }
    {
        Flags {
            spif: falls(lower, self.seen.spif, v / 128 % 2 == 1),
            modf: falls(lower, self.seen.modf, v / 64 % 2 == 1),
            halta: falls(lower, self.seen.halta, v / 32 % 2 == 1),
        }
    }

    // They lose their marks.
    // Ruled out: a flag falling unseen, or by a one; a mark that survives its flag.
    pub fn written(mut self, v: u16, lower: bool) -> Spsr
        ensures { result ≡ fallen self (falling self v lower) }
    {
        let gone = self.falling(v, lower);
        let flags = self.flags;
        let seen = self.seen;
        self.flags = flags.without(gone);
        self.seen = seen.without(gone);
        self
    }
}
