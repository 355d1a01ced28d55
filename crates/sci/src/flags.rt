// A set of status flags with named members, each at its bit of SCSR.
ghost use Rattle.std.specs.Prelude.{◌≡◌};
ghost use Rattle.sci.specs.model.Flags.{insert, contains, without, common};

#[repr(C)]
#[derive(Clone, Copy)]
pub struct Flags {
    pub bits: u16,
}

impl Flags {
    pub const NONE: Flags = Flags { bits: 0 };

    pub const PF: Flags = Flags { bits: 0x001 };

    pub const FE: Flags = Flags { bits: 0x002 };

    pub const NF: Flags = Flags { bits: 0x004 };

    pub const OR: Flags = Flags { bits: 0x008 };

    pub const IDLE: Flags = Flags { bits: 0x010 };

    pub const RAF: Flags = Flags { bits: 0x020 };

    pub const RDRF: Flags = Flags { bits: 0x040 };

    pub const TC: Flags = Flags { bits: 0x080 };

    pub const TDRE: Flags = Flags { bits: 0x100 };
    // The receive flags: RDRF, IDLE, OR, NF, FE, PF.
    pub const RECEIVE: Flags = Flags { bits: 0x05F };
    // The transmit flags: TDRE, TC.
    pub const TRANSMIT: Flags = Flags { bits: 0x180 };

    // The set with the members of f.
    // Ruled out: f alone; a flag that is toggled.
    pub fn insert(self, f: Flags) -> Flags
        ensures { result ≡ insert self f }
    {
        Flags {
            bits: self.bits | f.bits,
        }
    }

    // Whether every member of f is in the set.
    // Ruled out: whether some member is; whether the sets are equal.
    pub fn contains(self, f: Flags) -> bool
        ensures { result ≡ contains self f }
    {
        self.bits & f.bits == f.bits
    }

    // The set with no member of f.
    // Ruled out: a toggled flag; the members of f kept instead.
    pub fn without(self, f: Flags) -> Flags
        ensures { result ≡ without self f }
    {
        Flags {
            bits: self.bits - (self.bits & f.bits),
        }
    }

    // The members of both sets.
    // Ruled out: the members of either; of the first alone.
    pub fn common(self, f: Flags) -> Flags
        ensures { result ≡ common self f }
    {
        Flags {
            bits: self.bits & f.bits,
        }
    }
}
