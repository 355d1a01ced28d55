// The accesses to SCCR0, SCCR1, SCSR and SCDR: what a read gives and leaves, what a write makes, and when a write is guarded.
ghost use Rattle.std.specs.Prelude.{◌≡◌};
ghost use Rattle.sci.specs.model.Control.{sccr0_bits};
ghost use Rattle.sci.specs.model.Parts.{with_status};
ghost use Rattle.sci.specs.model.Serial.{sccr1_word, scsr_word, scdr_word, status_read, data_read, loaded, data_written, with_sccr0, sccr0_set, wrote_sccr0, stopped, with_sccr1, wrote_sccr1, sccr0_guarded, sccr1_guarded};

use crate::control;
use crate::flags::Flags;
use crate::serial::Sci;
use crate::status::Status;

impl Sci {
    // SCCR0 as it is read.
    // Ruled out: bits 15:13 read; the prescaler's count read.
    pub fn sccr0(self) -> u16
        ensures { result ≡ sccr0_bits self.sccr0 }
    {
        control::sccr0_bits(self.sccr0)
    }

    // SCCR1 as it is read.
    // Ruled out: RWU read as zero while asleep; LOOPS read as one.
    pub fn sccr1(self) -> u16
        ensures { result ≡ sccr1_word self }
    {
        let receiver = self.receiver;
        let kept = control::sccr1_bits(self.sccr1);
        if receiver.asleep { kept + 2 } else { kept }
    }

    // SCSR as it is read.
    // Ruled out: the marks instead of the flags; TDRE cut off.
    pub fn scsr(self) -> u16
        ensures { result ≡ scsr_word self }
    {
        let status = self.status;
        let flags = status.flags;
        flags.bits % 512
    }

    // SCDR as it is read.
    // Ruled out: the data register of the transmitter; bit 8 cut off.
    pub fn scdr(self) -> u16
        ensures { result ≡ scdr_word self }
    {
        let receiver = self.receiver;
        receiver.scdr % 512
    }

    fn with_status(mut self, s: Status) -> Sci
        ensures { result ≡ with_status self s }
    {
        self.status = s;
        self
    }

    // A read of either byte of SCSR.
    // Ruled out: a read that marks nothing; one that clears a flag.
    pub fn status_read(self) -> Sci
        ensures { result ≡ status_read self }
    {
        let status = self.status;
        self.with_status(status.mark_seen())
    }

    // A read of SCDR's low byte or word.
    // Ruled out: RDRF falling without a status read that saw it; TDRE falling.
    pub fn data_read(self) -> Sci
        ensures { result ≡ data_read self }
    {
        let status = self.status;
        self.with_status(status.fall_seen(Flags::RECEIVE))
    }

    fn loaded(mut self, v: u16, upper: bool) -> Sci
        ensures { result ≡ loaded self v upper }
    {
        let status = self.status;
        let mut transmitter = self.transmitter;
        transmitter.scdr = steps::merge(transmitter.scdr, v, upper, true) % 512;
        self.transmitter = transmitter;
        self.with_status(status.fall_seen(Flags::TRANSMIT))
    }

    // A write of SCDR's bytes. A low-byte write keeps bit 8; the upper byte alone does nothing.
    // Ruled out: the upper byte alone stored; TDRE falling without a status read that saw it.
    pub fn data_write(self, v: u16, upper: bool, lower: bool) -> Sci
        ensures { result ≡ data_written lower self v upper }
    {
        if lower { self.loaded(v, upper) } else { self }
    }

    fn with_sccr0(mut self, v: u16) -> Sci
        ensures { result ≡ with_sccr0 self v }
    {
        self.sccr0 = v;
        self.prescaler = 0;
        self
    }

    fn sccr0_set(self, same: bool, v: u16) -> Sci
        ensures { result ≡ sccr0_set same self v }
    {
        if same { self } else { self.with_sccr0(v) }
    }

    // A write of SCCR0's bytes: a changed SCCR0 restarts the prescaler.
    // Ruled out: a restart by the same value; bits 15:13 kept.
    pub fn write_sccr0(self, v: u16, upper: bool, lower: bool) -> Sci
        ensures { result ≡ wrote_sccr0 self v upper lower }
    {
        let new = control::sccr0_bits(steps::merge(self.sccr0, v, upper, lower));
        self.sccr0_set(new == self.sccr0, new)
    }

    // RE clear puts the receiver in its start state, and RAF falls.
    fn stopped(mut self, re: bool) -> Sci
        ensures { result ≡ stopped re self }
    {
        if re {
            self
        } else {
            let receiver = self.receiver;
            let status = self.status;
            let start = receiver.start_state();
            self.receiver = start;
            self.with_status(status.fall(Flags::RAF))
        }
    }

    fn with_sccr1(mut self, v: u16) -> Sci
        ensures { result ≡ with_sccr1 self v }
    {
        let mut receiver = self.receiver;
        receiver.asleep = control::rwu(v);
        let mut transmitter = self.transmitter;
        transmitter.preamble = control::te(v) & (transmitter.preamble | !control::te(self.sccr1));
        self.receiver = receiver;
        self.transmitter = transmitter;
        self.sccr1 = control::sccr1_bits(v);
        self
    }

    // A write of SCCR1's bytes. TE rising queues a preamble; TE falling forgets it.
    // Ruled out: a preamble for TE written one while one; a frame under way in a receiver with RE clear.
    pub fn write_sccr1(self, v: u16, upper: bool, lower: bool) -> Sci
        ensures { result ≡ wrote_sccr1 self v upper lower }
    {
        let new = steps::merge(self.sccr1(), v, upper, lower);
        let next = self.with_sccr1(new);
        next.stopped(control::re(new))
    }

    // Whether a write of SCCR0's bytes changes it while it is guarded (refusal 4).
    // Ruled out: the same value refused; a change let through while RE is set.
    pub fn sccr0_guarded(self, v: u16, upper: bool, lower: bool) -> bool
        ensures { result ≡ sccr0_guarded self v upper lower }
    {
        let new = steps::merge(self.sccr0, v, upper, lower);
        self.active() & (control::sccr0_bits(new) != control::sccr0_bits(self.sccr0))
    }

    // Whether a write of SCCR1's bytes changes ILT, PT, PE, M or WAKE while they are guarded (refusal 4).
    // Ruled out: a change of TIE refused; a change of M let through while TE is set.
    pub fn sccr1_guarded(self, v: u16, upper: bool, lower: bool) -> bool
        ensures { result ≡ sccr1_guarded self v upper lower }
    {
        let new = steps::merge(self.sccr1, v, upper, lower);
        self.active() & (control::settings(new) != control::settings(self.sccr1))
    }
}
