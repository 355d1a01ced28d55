// The noise figures of a line's words, its newline's among them.
ghost use Rattle.std.specs.Prelude.{◌≡◌};
ghost use Rattle.tool_lines.specs.Noise.{silent, with_figure, added, heard, unheard};

use crate::line::NEWLINE;

// The total of some figures, and the worst of them.
#[repr(C)]
#[derive(Clone, Copy)]
pub struct Noise {
    pub total: u64,
    pub worst: u8,
}

// Of the line being gathered, and of the line that ended last.
#[repr(C)]
#[derive(Clone, Copy)]
pub struct Noises {
    pub line: Noise,
    pub last: Noise,
}

impl Noise {
    // Ruled out: a total above 0; a worst figure where there is none.
    pub fn silent() -> Noise
        ensures { result ≡ silent }
    {
        Noise { total: 0, worst: 0 }
    }

    // Ruled out: the last figure for the worst; a total that starts again.
    pub fn with_figure(self, figure: u8) -> Noise
        ensures { result ≡ with_figure self figure }
    {
        Noise {
            total: self.total.saturating_add(u64::from(figure)),
            worst: self.worst.max(figure),
        }
    }
}

impl Noises {
    fn added(self, newline: bool, figure: u8) -> Noises
        ensures { result ≡ added self newline figure }
    {
        let line = self.line;
        let with = line.with_figure(figure);
        if newline {
            Noises {
                line: Noise::silent(),
                last: with,
            }
        } else {
            let last = self.last;
            Noises { line: with, last }
        }
    }

    // What a poll makes of the figures, that of the word in SCDR being given.
    // Ruled out: a figure added where no word is delivered; that of a newline added to the next line.
    pub fn heard(self, status: u32, word: u32, figure: u8) -> Noises
        ensures { result ≡ heard self status word figure }
    {
        if status / 64 % 2 == 1 {
            self.added((word % 128) as u8 == NEWLINE, figure)
        } else {
            self
        }
    }

    // The figures of an unfinished line are forgotten with it.
    // Ruled out: those of the last line forgotten too; a figure kept over a reset.
    pub fn unheard(mut self) -> Noises
        ensures { result ≡ unheard self }
    {
        self.line = Noise::silent();
        self
    }
}
