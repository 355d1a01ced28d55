// SCSR: the flags that are set, and which of them a status read has seen.
ghost use Rattle.std.specs.Prelude.{◌≡◌};
ghost use Rattle.sci.specs.model.Status.{has, raise, raise_if, fall, fall_if, mark_seen, fall_seen};

use crate::flags::Flags;

#[repr(C)]
#[derive(Clone, Copy)]
pub struct Status {
    pub flags: Flags,
    pub seen: Flags,
}

impl Status {
    // Ruled out: the mark of the flag instead of the flag; some other flag.
    pub fn has(self, f: Flags) -> bool
        ensures { result ≡ has self f }
    {
        let flags = self.flags;
        flags.contains(f)
    }

    // Ruled out: a rise that marks the flag as seen; one that unmarks it.
    pub fn raise(self, f: Flags) -> Status
        ensures { result ≡ raise self f }
    {
        let flags = self.flags;
        let seen = self.seen;
        Status {
            flags: flags.insert(f),
            seen,
        }
    }

    // Ruled out: a rise in any case; none in any case.
    pub fn raise_if(self, rises: bool, f: Flags) -> Status
        ensures { result ≡ raise_if rises self f }
    {
        if rises { self.raise(f) } else { self }
    }

    // The mark of a flag falls with it.
    // Ruled out: a mark that survives its flag; another flag's fall.
    pub fn fall(self, f: Flags) -> Status
        ensures { result ≡ fall self f }
    {
        let flags = self.flags;
        let seen = self.seen;
        Status {
            flags: flags.without(f),
            seen: seen.without(f),
        }
    }

    // Ruled out: a fall in any case; none in any case.
    pub fn fall_if(self, falls: bool, f: Flags) -> Status
        ensures { result ≡ fall_if falls self f }
    {
        if falls { self.fall(f) } else { self }
    }

    // A read of either byte of SCSR marks as seen every flag then set.
    // Ruled out: a read that marks nothing; one that clears a flag.
    pub fn mark_seen(self) -> Status
        ensures { result ≡ mark_seen self }
    {
        let flags = self.flags;
        let seen = self.seen;
        Status {
            flags,
            seen: seen.insert(flags),
        }
    }

    // The flags of a group that are set and seen fall.
    // Ruled out: one that was not seen falls; a mark that survives its flag.
    pub fn fall_seen(self, group: Flags) -> Status
        ensures { result ≡ fall_seen self group }
    {
        let flags = self.flags;
        let seen = self.seen;
        let falls = flags.common(seen);
        self.fall(falls.common(group))
    }
}
