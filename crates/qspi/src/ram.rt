// The queue RAM by words and their byte lanes.
ghost use Rattle.std.specs.Prelude.{◌≡◌, ◌%◌};
ghost use Rattle.qspi.specs.model.Ram.{receive_word, transmit_word, command_word, with_received, with_transmit, with_commands, write_receive, write_transmit, write_command};

use crate::Qspi;
use steps::{lower_byte, merge, upper_byte, word};

#[repr(C)]
#[derive(Clone, Copy, PartialEq, Eq)]
pub struct Ram {
    pub receive: [u16; 16],
    pub transmit: [u16; 16],
    pub commands: [u8; 16],
}

// One word replaced.
impl Ram {
    // Ruled out: a transmit word replaced; another word.
    pub fn received(mut self, i: u8, w: u16) -> Ram
        ensures { result ≡ with_received self (i % 16) w }
    {
        let mut receive = self.receive;
        receive[(i % 16) as usize] = w;
        self.receive = receive;
        self
    }

    fn to_transmit(mut self, i: u8, w: u16) -> Ram
        ensures { result ≡ with_transmit self (i % 16) w }
    {
        let mut transmit = self.transmit;
        transmit[(i % 16) as usize] = w;
        self.transmit = transmit;
        self
    }

    // Command bytes 2i and 2i + 1.
    fn commanded(mut self, i: u8, w: u16) -> Ram
        ensures { result ≡ with_commands self (i % 8) w }
    {
        let at = (i % 8 * 2) as usize;
        let mut commands = self.commands;
        commands[at] = upper_byte(w);
        commands[at + 1] = lower_byte(w);
        self.commands = commands;
        self
    }
}

impl Qspi {
    // Ruled out: a transmit word; always word 0.
    pub fn receive_word(self, i: u8) -> u16
        ensures { result ≡ receive_word self i }
    {
        let receive = self.ram.receive;
        receive[(i % 16) as usize]
    }

    // Ruled out: a receive word; always word 0.
    pub fn transmit_word(self, i: u8) -> u16
        ensures { result ≡ transmit_word self i }
    {
        let transmit = self.ram.transmit;
        transmit[(i % 16) as usize]
    }

    // Ruled out: the two bytes swapped; byte i for byte 2i.
    pub fn command_word(self, i: u8) -> u16
        ensures { result ≡ command_word self i }
    {
        let at = (i % 8 * 2) as usize;
        let commands = self.ram.commands;
        word(commands[at], commands[at + 1])
    }

    // Ruled out: an untouched byte changed; another word changed.
    pub fn write_receive(mut self, i: u8, v: u16, upper: bool, lower: bool) -> Qspi
        ensures { result ≡ write_receive self i v upper lower }
    {
        let w = merge(self.receive_word(i), v, upper, lower);
        let ram = self.ram;
        self.ram = ram.received(i, w);
        self
    }

    // Ruled out: an untouched byte changed; the word that an entry took changed.
    pub fn write_transmit(mut self, i: u8, v: u16, upper: bool, lower: bool) -> Qspi
        ensures { result ≡ write_transmit self i v upper lower }
    {
        let w = merge(self.transmit_word(i), v, upper, lower);
        let ram = self.ram;
        self.ram = ram.to_transmit(i, w);
        self
    }

    // Ruled out: the two bytes swapped; an untouched byte changed.
    pub fn write_command(mut self, i: u8, v: u16, upper: bool, lower: bool) -> Qspi
        ensures { result ≡ write_command self i v upper lower }
    {
        let w = merge(self.command_word(i), v, upper, lower);
        let ram = self.ram;
        self.ram = ram.commanded(i, w);
        self
    }
}
