// SCCR0 and SCCR1: their fields, decoded from the register words, and what M makes of a frame's length.
ghost use Rattle.std.specs.Prelude.{◌≡◌};
ghost use Rattle.sci.specs.model.Control.{SCBR, ILT, PT, PE, M, WAKE, TIE, TCIE, RIE, ILIE, TE, RE, RWU, bits_of, frame_samples, sccr0_bits, sccr1_bits, settings, unmodelled};

// Ruled out: bits 15:13 taken along; the low byte alone.
pub fn scbr(sccr0: u16) -> u16
    ensures { result ≡ SCBR sccr0 }
{
    sccr0 % 0x2000
}

// Ruled out: the bit beside it; the bit turned round.
pub fn ilt(sccr1: u16) -> bool
    ensures { result ≡ ILT sccr1 }
{
    sccr1 / 0x1000 % 2 == 1
}

// Ruled out: the bit beside it; the bit turned round.
pub fn pt(sccr1: u16) -> bool
    ensures { result ≡ PT sccr1 }
{
    sccr1 / 0x800 % 2 == 1
}

// Ruled out: the bit beside it; the bit turned round.
pub fn pe(sccr1: u16) -> bool
    ensures { result ≡ PE sccr1 }
{
    sccr1 / 0x400 % 2 == 1
}

// Ruled out: the bit beside it; the bit turned round.
pub fn m(sccr1: u16) -> bool
    ensures { result ≡ M sccr1 }
{
    sccr1 / 0x200 % 2 == 1
}

// Ruled out: the bit beside it; the bit turned round.
pub fn wake(sccr1: u16) -> bool
    ensures { result ≡ WAKE sccr1 }
{
    sccr1 / 0x100 % 2 == 1
}

// Ruled out: the bit beside it; the bit turned round.
pub fn tie(sccr1: u16) -> bool
    ensures { result ≡ TIE sccr1 }
{
    sccr1 / 128 % 2 == 1
}

// Ruled out: the bit beside it; the bit turned round.
pub fn tcie(sccr1: u16) -> bool
    ensures { result ≡ TCIE sccr1 }
{
    sccr1 / 64 % 2 == 1
}

// Ruled out: the bit beside it; the bit turned round.
pub fn rie(sccr1: u16) -> bool
    ensures { result ≡ RIE sccr1 }
{
    sccr1 / 32 % 2 == 1
}

// Ruled out: the bit beside it; the bit turned round.
pub fn ilie(sccr1: u16) -> bool
    ensures { result ≡ ILIE sccr1 }
{
    sccr1 / 16 % 2 == 1
}

// Ruled out: the bit beside it; the bit turned round.
pub fn te(sccr1: u16) -> bool
    ensures { result ≡ TE sccr1 }
{
    sccr1 / 8 % 2 == 1
}

// Ruled out: the bit beside it; the bit turned round.
pub fn re(sccr1: u16) -> bool
    ensures { result ≡ RE sccr1 }
{
    sccr1 / 4 % 2 == 1
}

// Ruled out: the bit beside it; the bit turned round.
pub fn rwu(sccr1: u16) -> bool
    ensures { result ≡ RWU sccr1 }
{
    sccr1 / 2 % 2 == 1
}

// Data bits of a frame: 8 (M=0) or 9 (M=1).
// Ruled out: M turned round; 8 in both cases.
pub fn bits_of(m: bool) -> u8
    ensures { result ≡ bits_of m }
{
    if m { 9 } else { 8 }
}

// Samples of a frame, of a preamble and of an idle line: 160 (M=0) or 176 (M=1).
// Ruled out: M turned round; a frame without its stop bit.
pub fn frame_samples(m: bool) -> u8
    ensures { result ≡ frame_samples (bits_of m) }
{
    if m { 176 } else { 160 }
}

// The bits of SCCR0 that exist: SCBR.
// Ruled out: bits 15:13 kept; SCBR cut to a byte.
pub fn sccr0_bits(v: u16) -> u16
    ensures { result ≡ sccr0_bits v }
{
    v % 0x2000
}

// The bits of SCCR1 that are kept as a word: ILT to RE. (RWU is the receiver's; LOOPS, WOMS and SBK are never set.)
// Ruled out: LOOPS kept; RE dropped.
pub fn sccr1_bits(v: u16) -> u16
    ensures { result ≡ sccr1_bits v }
{
    v % 0x2000 / 4 * 4
}

// The guarded fields of SCCR1: ILT, PT, PE, M, WAKE.
// Ruled out: TIE taken along; ILT left out.
pub fn settings(sccr1: u16) -> u16
    ensures { result ≡ settings sccr1 }
{
    sccr1 / 256 % 32
}

// Whether a write of these bytes of SCCR1 would set LOOPS, WOMS or SBK (refusal 3).
// Ruled out: a byte that the write does not touch asked; WOMS let through.
pub fn unmodelled(v: u16, upper: bool, lower: bool) -> bool
    ensures { result ≡ unmodelled v upper lower }
{
    (upper & ((v / 0x4000 % 2 == 1) | (v / 0x2000 % 2 == 1))) | (lower & (v % 2 == 1))
}
