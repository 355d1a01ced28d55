// The records of a buffer: an edition added, or one withdrawn.
ghost use Rattle.std.specs.Prelude.{◌≡◌, ◌≤◌, length};
ghost use Rattle.tool_editions.specs.Records.{number_of, size_of, edition_at, parsed, bytes_of};
ghost use Rattle.tool_editions.specs.declared.records.Record.TheVariants.{Added, Withdrawn};

// The settings of an edition, by register.
#[repr(C)]
#[derive(Clone, Copy)]
pub struct Edition {
    pub number: u16,
    pub sccr0: u16,
    pub sccr1: u16,
    pub spcr0: u16,
    pub spcr1: u16,
}

#[derive(Clone, Copy)]
pub enum Record {
    Added(Edition),
    Withdrawn(u16),
}

// Why no record stands at the start of a rest of a buffer.
#[derive(Clone, Copy)]
pub enum Unreadable {
    Unknown,
    Cut,
}

// The kinds of a record, and the bytes of each.
pub const ADDED: u8 = 0x21;

pub const WITHDRAWN: u8 = 0x22;

pub(crate) const ADDED_SIZE: usize = 11;

pub(crate) const WITHDRAWN_SIZE: usize = 3;

impl Record {
    // The edition that a record adds or withdraws.
    // Ruled out: SCCR0 for the number; 0 for a withdrawal.
    pub fn number(self) -> u16
        ensures { result ≡ number_of self }
    {
        match self {
            Record::Added(e) => e.number,
            Record::Withdrawn(n) => n,
        }
    }

    // The bytes of a record.
    // Ruled out: one length for both kinds; the body without the kind.
    pub fn size(self) -> usize
        ensures { result ≡ size_of self }
    {
        match self {
            Record::Added(_) => ADDED_SIZE,
            Record::Withdrawn(_) => WITHDRAWN_SIZE,
        }
    }
}

impl Edition {
    // The bytes of a record that adds an edition.
    pub(crate) fn added(self) -> [u8; ADDED_SIZE]
        ensures { result ≡ bytes_of (Added self) }
    {
        let number = self.number.to_be_bytes();
        let sccr0 = self.sccr0.to_be_bytes();
        let sccr1 = self.sccr1.to_be_bytes();
        let spcr0 = self.spcr0.to_be_bytes();
        let spcr1 = self.spcr1.to_be_bytes();
        [
            ADDED, number[0], number[1], sccr0[0], sccr0[1], sccr1[0], sccr1[1], spcr0[0],
            spcr0[1], spcr1[0], spcr1[1],
        ]
    }
}

// The bytes of a record that withdraws one.
pub(crate) fn withdrawal(number: u16) -> [u8; WITHDRAWN_SIZE]
    ensures { result ≡ bytes_of (Withdrawn number) }
{
    let n = number.to_be_bytes();
    [WITHDRAWN, n[0], n[1]]
}

// The edition of a record of 11 bytes.
fn edition_at(rest: &[u8]) -> Edition
    requires { 11 ≤ length rest.now }
    ensures { result ≡ edition_at rest.now }
{
    Edition {
        number: u16::from_be_bytes([rest[1], rest[2]]),
        sccr0: u16::from_be_bytes([rest[3], rest[4]]),
        sccr1: u16::from_be_bytes([rest[5], rest[6]]),
        spcr0: u16::from_be_bytes([rest[7], rest[8]]),
        spcr1: u16::from_be_bytes([rest[9], rest[10]]),
    }
}

// The record at the start of a rest of a buffer.
// Ruled out: a record cut by the end read; a cut record of an unknown kind that is 6; the bytes of a word exchanged.
#[tactic(auto, unfolding(crate::specs::Records::parsed))]
pub fn parse(rest: &[u8]) -> Result<Record, Unreadable>
    ensures { result ≡ parsed rest.now }
{
    if rest.is_empty() {
        return Err(Unreadable::Cut);
    }
    let kind = rest[0];
    if kind == ADDED {
        if rest.len() < ADDED_SIZE {
            return Err(Unreadable::Cut);
        }
        return Ok(Record::Added(edition_at(rest)));
    }
    if kind == WITHDRAWN {
        if rest.len() < WITHDRAWN_SIZE {
            return Err(Unreadable::Cut);
        }
        return Ok(Record::Withdrawn(u16::from_be_bytes([rest[1], rest[2]])));
    }
    Err(Unreadable::Unknown)
}
