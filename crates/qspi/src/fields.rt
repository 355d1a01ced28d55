// Fields of the queue's registers and of a command byte, and what they mean in bits and clocks.
ghost use Rattle.std.specs.Prelude.{◌≡◌};
ghost use Rattle.steps.specs.Bits.{bit};
ghost use Rattle.qspi.specs.model.Fields.{mstr, cpol, cpha, spbr, spe, wren, halt, cont, zero_means, bits_of, pre_delay, delay_after};

use steps::choose;

// Ruled out: another bit; the bit inverted.
pub fn bit_0(x: u8) -> bool
    ensures { result ≡ bit 0 x }
{
    x % 2 == 1
}

// Ruled out: another bit; the bit inverted.
pub fn mstr(spcr0: u16) -> bool
    ensures { result ≡ mstr spcr0 }
{
    spcr0 / 0x8000 % 2 == 1
}

// Ruled out: CPHA's bit; always false.
pub fn cpol(spcr0: u16) -> bool
    ensures { result ≡ cpol spcr0 }
{
    spcr0 / 0x200 % 2 == 1
}

// Ruled out: CPOL's bit; always true, as after reset.
pub fn cpha(spcr0: u16) -> bool
    ensures { result ≡ cpha spcr0 }
{
    spcr0 / 0x100 % 2 == 1
}

// Ruled out: the upper byte; seven bits of it.
pub fn spbr(spcr0: u16) -> u16
    ensures { result ≡ spbr spcr0 }
{
    spcr0 % 256
}

// Ruled out: another bit; the bit inverted.
pub fn spe(spcr1: u16) -> bool
    ensures { result ≡ spe spcr1 }
{
    spcr1 / 0x8000 % 2 == 1
}

// Ruled out: another bit; the bit inverted.
pub fn wren(spcr2: u16) -> bool
    ensures { result ≡ wren spcr2 }
{
    spcr2 / 0x4000 % 2 == 1
}

// Ruled out: another bit; the bit inverted.
pub fn halt(spcr3: u8) -> bool
    ensures { result ≡ halt spcr3 }
{
    bit_0(spcr3)
}

// Ruled out: another bit; the bit inverted.
pub fn cont(command: u8) -> bool
    ensures { result ≡ cont command }
{
    command / 128 % 2 == 1
}

// A field of which 0 means another number.
fn zero_means(other: u16, x: u16) -> u16
    ensures { result ≡ zero_means other x }
{
    choose(x == 0, other, x)
}

// Bits n of an entry.
// Ruled out: BITS without BITSE; 0 as none; 8 always.
pub fn bits_of(spcr0: u16, command: u8) -> u16
    ensures { result ≡ bits_of spcr0 command }
{
    choose(command / 64 % 2 == 1, zero_means(16, spcr0 / 0x400 % 16), 8)
}

// Pre-delay p in clocks.
// Ruled out: DSCKL without DSCK; 0 as no delay; 1 as 2.
pub fn pre_delay(spcr0: u16, spcr1: u16, command: u8) -> u16
    ensures { result ≡ pre_delay spcr0 spcr1 command }
{
    choose(
        command / 16 % 2 == 1,
        zero_means(128, spcr1 / 256 % 128),
        spcr0 % 256,
    )
}

// Clocks from edge 2n to the next clock 1.
// Ruled out: DTL without DT; 0 as no delay; 16 or 18 clocks.
pub fn delay_after(spcr1: u16, command: u8) -> u16
    ensures { result ≡ delay_after spcr1 command }
{
    choose(
        command / 32 % 2 == 1,
        zero_means(8192, 32 * (spcr1 % 256)),
        17,
    )
}
