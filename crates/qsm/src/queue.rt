// The words of the queue half: read, what a read leaves, write, and what a write is refused for.
ghost use Rattle.std.specs.Prelude.{◌≡◌};
ghost use Rattle.qsm.specs.model.Queue.{peek_queue, queue_read, put_queue, queue_unmodelled, queue_guarded};

use crate::map::QueueWord;
use qspi::Qspi;

// Ruled out: every read answered 0; a transmit word for a receive word.
#[tactic(auto, unfolding(crate::specs::model::Queue::peek_queue))]
pub fn peek_queue(q: Qspi, w: QueueWord) -> u16
    ensures { result ≡ peek_queue q w }
{
    match w {
        QueueWord::Spcr0 => q.spcr0(),
        QueueWord::Spcr1 => q.spcr1(),
        QueueWord::Spcr2 => q.spcr2(),
        QueueWord::Spcr3Spsr => q.spcr3_spsr(),
        QueueWord::Receive(i) => q.receive_word(i),
        QueueWord::Transmit(i) => q.transmit_word(i),
        QueueWord::Command(i) => q.command_word(i),
    }
}

// What a read leaves that touches byte 1F.
// Ruled out: nothing seen; a read that lets a flag fall.
#[tactic(auto, unfolding(crate::specs::model::Queue::queue_read))]
pub fn queue_read(q: Qspi, status: bool) -> Qspi
    ensures { result ≡ queue_read status q }
{
    if status { q.status_read() } else { q }
}

// A write of a word's bytes, with no test.
// Ruled out: a write to another word; receive words that can't be written.
#[tactic(auto, unfolding(crate::specs::model::Queue::put_queue))]
pub fn put_queue(q: Qspi, w: QueueWord, v: u16, upper: bool, lower: bool) -> Qspi
    ensures { result ≡ put_queue q w v upper lower }
{
    match w {
        QueueWord::Spcr0 => q.write_spcr0(v, upper, lower),
        QueueWord::Spcr1 => q.write_spcr1(v, upper, lower),
        QueueWord::Spcr2 => q.write_spcr2(v, upper, lower),
        QueueWord::Spcr3Spsr => q.write_spcr3_spsr(v, upper, lower),
        QueueWord::Receive(i) => q.write_receive(i, v, upper, lower),
        QueueWord::Transmit(i) => q.write_transmit(i, v, upper, lower),
        QueueWord::Command(i) => q.write_command(i, v, upper, lower),
    }
}

// Refusal 3.
// Ruled out: WOMQ let through; SPE refused with MSTR set.
#[tactic(auto, unfolding(crate::specs::model::Queue::queue_unmodelled))]
pub fn queue_unmodelled(q: Qspi, w: QueueWord, v: u16, upper: bool) -> bool
    ensures { result ≡ queue_unmodelled q w v upper }
{
    match w {
        QueueWord::Spcr0 => qspi::registers::spcr0_unmodelled(v, upper),
        QueueWord::Spcr1 => q.spcr1_unmodelled(v, upper),
        QueueWord::Spcr3Spsr => qspi::registers::spcr3_unmodelled(v, upper),
        QueueWord::Spcr2 | QueueWord::Receive(_) | QueueWord::Transmit(_) | QueueWord::Command(_) =>
            false,
    }
}

// Refusal 4.
// Ruled out: SPCR2 guarded; DTL let through while SPE is set.
#[tactic(auto, unfolding(crate::specs::model::Queue::queue_guarded))]
pub fn queue_guarded(q: Qspi, w: QueueWord, v: u16, upper: bool, lower: bool) -> bool
    ensures { result ≡ queue_guarded q w v upper lower }
{
    match w {
        QueueWord::Spcr0 => q.spcr0_guarded(v, upper, lower),
        QueueWord::Spcr1 => q.spcr1_guarded(v, upper, lower),
        QueueWord::Spcr2
        | QueueWord::Spcr3Spsr
        | QueueWord::Receive(_)
        | QueueWord::Transmit(_)
        | QueueWord::Command(_) => false,
    }
}
