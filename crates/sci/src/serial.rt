// The serial half as one state: reset, clocks, TXD, the request, and what it counts.
ghost use Rattle.std.specs.Prelude.{◌≡◌};
ghost use Rattle.sci.specs.model.Serial.{reset_sci, active, due, sampled, counted, prescaled, clocked, txd_driven, txd, asks};
ghost use Rattle.sci.specs.quick.Plain.{listened};
ghost use Rattle.sci.specs.model.Receiver.{outcome};
ghost use Rattle.sci.specs.model.Account.{accounted};

use crate::account::Account;
use crate::control;
use crate::flags::Flags;
use crate::framer::Framer;
use crate::receiver::{Received, Receiver};
use crate::status::Status;
use crate::transmitter::Transmitter;

#[repr(C)]
#[derive(Clone, Copy)]
pub struct Sci {
    // SCCR0, and SCCR1 without RWU, which the receiver keeps.
    pub sccr0: u16,
    pub sccr1: u16,
    // Clocks since the last sample.
    pub prescaler: u16,
    pub status: Status,
    pub receiver: Receiver,
    pub transmitter: Transmitter,
    pub account: Account,
}

impl Sci {
    // Ruled out: TDRE or TC clear; SCBR other than 4.
    pub fn reset() -> Sci
        ensures { result ≡ reset_sci }
    {
        Sci {
            sccr0: 4,
            sccr1: 0,
            status: Status {
                flags: Flags::TRANSMIT,
                seen: Flags::NONE,
            },
            prescaler: 0,
            receiver: Receiver {
                framer: Framer::searching(),
                last1: false,
                last2: false,
                last3: false,
                idle: 0,
                since: false,
                asleep: false,
                scdr: 0,
                noise: 0,
            },
            transmitter: Transmitter {
                scdr: 0,
                preamble: false,
                shift: 0,
                left: 0,
            },
            account: Account { taken: 0, lost: 0 },
        }
    }

    // TE or RE is set, or a frame or preamble runs: the prescaler runs, and the settings are guarded.
    // Ruled out: RE left out; a frame that still runs after TE fell left out.
    pub fn active(self) -> bool
        ensures { result ≡ active self }
    {
        let transmitter = self.transmitter;
        control::te(self.sccr1) | control::re(self.sccr1) | transmitter.runs()
    }

    // Whether this clock brings a sample, where the prescaler runs.
    fn due(self) -> bool
        ensures { result ≡ due self }
    {
        let period = 2 * (control::scbr(self.sccr0) as u32);
        (period != 0) & (period <= (self.prescaler as u32) + 1)
    }

    // One sample: transmitter before receiver.
    // Ruled out: a receiver that samples with RE clear; a transmitter that stands still.
    pub fn sample(self, x: bool) -> Sci
        ensures { result ≡ sampled self x }
    {
        let transmitter = self.transmitter;
        let status = self.status;
        let receiver = self.receiver;
        let sent = transmitter.sample(status, self.sccr1);
        let sender = sent.transmitter;
        let flags = sent.status;
        let re = control::re(self.sccr1);
        let account = self.account;
        let account = accounted(re, account, receiver, flags, self.sccr1, x);
        let received = listened(re, receiver, flags, self.sccr1, x);
        let hearer = received.receiver;
        let after = received.status;
        Sci {
            sccr0: self.sccr0,
            sccr1: self.sccr1,
            prescaler: 0,
            status: after,
            receiver: hearer,
            transmitter: sender,
            account,
        }
    }

    // One clock more. The count stops at its largest value, which only SCBR 0, with no sample to come, lets it reach.
    fn counted(mut self) -> Sci
        ensures { result ≡ counted self }
    {
        self.prescaler = self.prescaler.saturating_add(1);
        self
    }

    fn prescaled(self, due: bool, x: bool) -> Sci
        ensures { result ≡ prescaled due self x }
    {
        if due { self.sample(x) } else { self.counted() }
    }

    // One system clock, with the level on RXD.
    // Ruled out: a sample every SCBR clocks; a prescaler that runs with TE and RE clear and the shifter free.
    pub fn clock(self, x: bool) -> Sci
        ensures { result ≡ clocked self x }
    {
        if self.active() {
            self.prescaled(self.due(), x)
        } else {
            self
        }
    }

    // The noise figure of the word in SCDR.
    // Ruled out: that of the frame under way; one for any figure above 0.
    pub fn noise(self) -> u8
        ensures { result ≡ self.receiver.noise }
    {
        let receiver = self.receiver;
        receiver.noise
    }

    // Frames taken since the last reset, the lost ones with them.
    // Ruled out: those slept through with them; only those that entered SCDR.
    pub fn taken(self) -> u32
        ensures { result ≡ self.account.taken }
    {
        let account = self.account;
        account.taken
    }

    // Frames lost since the last reset.
    // Ruled out: rises of OR; frames taken.
    pub fn lost(self) -> u32
        ensures { result ≡ self.account.lost }
    {
        let account = self.account;
        account.lost
    }

    // Whether the transmitter drives TXD.
    // Ruled out: TXD let go in the middle of a frame; driven by RE.
    pub fn txd_driven(self) -> bool
        ensures { result ≡ txd_driven self }
    {
        let transmitter = self.transmitter;
        control::te(self.sccr1) | transmitter.runs()
    }

    // The level that the transmitter gives TXD.
    // Ruled out: a rest at zero; the level turned round.
    pub fn txd(self) -> bool
        ensures { result ≡ txd self }
    {
        let transmitter = self.transmitter;
        transmitter.level()
    }

    // Whether SCI asks for an interrupt: never with TIE, TCIE, RIE and ILIE all clear.
    // Ruled out: a request masked by RWU; OR that needs RDRF.
    pub fn asks(self) -> bool
        ensures { result ≡ asks self }
    {
        let s = self.status;
        let c = self.sccr1;
        if c / 16 % 16 == 0 {
            return false;
        }
        (s.has(Flags::TDRE) & control::tie(c))
            | (s.has(Flags::TC) & control::tcie(c))
            | ((s.has(Flags::RDRF) | s.has(Flags::OR)) & control::rie(c))
            | (s.has(Flags::IDLE) & control::ilie(c))
    }
}

// With RE clear the receiver does not sample.
fn listened(re: bool, receiver: Receiver, status: Status, sccr1: u16, x: bool) -> Received
    ensures { result ≡ listened re receiver status sccr1 x }
{
    if re {
        receiver.sample(status, sccr1, x)
    } else {
        Received { receiver, status }
    }
}

// The account after a sample: with RE clear, or where no frame ends, it stays.
fn accounted(
    re: bool,
    account: Account,
    receiver: Receiver,
    status: Status,
    sccr1: u16,
    x: bool,
) -> Account
    ensures { result ≡ accounted re account (outcome receiver status sccr1 x) }
{
    let framer = receiver.framer;
    if re & framer.ends() {
        account.counting(receiver.outcome(status, sccr1, x))
    } else {
        account
    }
}
