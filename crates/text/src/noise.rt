// The lines of the noise figures: one for each word, and the tally at the end; and one for each line that is gathered.
ghost use Rattle.text.specs.Line.{Shows};
ghost use Rattle.text.specs.Noise.{noise_line, tally_line, line_noise};

use crate::line::Line;

// Word n, numbered from 0, and its figure.
// Ruled out: a number from 1; number and figure exchanged.
pub fn noise_line(n: u64, figure: u8) -> Line
    ensures { Shows result (noise_line n figure) }
{
    Line::empty()
        .number(n)
        .write(b"noise ")
        .decimal(3, figure as u64)
        .put(10)
}

// How many words there were, how many of them noisy, and the worst figure.
// Ruled out: the counts exchanged; a count cut off at the left.
pub fn tally_line(words: u64, noisy: u64, worst: u8) -> Line
    ensures { Shows result (tally_line words noisy worst) }
{
    Line::empty()
        .write(b"words ")
        .decimal(20, words)
        .write(b", noisy ")
        .decimal(20, noisy)
        .write(b", worst ")
        .decimal(3, worst as u64)
        .put(10)
}

// A line that was gathered, by its number: the total of its words' figures, and the worst.
// Ruled out: total and worst exchanged; a total cut off at the left.
pub fn line_noise(number: u64, total: u64, worst: u8) -> Line
    ensures { Shows result (line_noise number total worst) }
{
    Line::empty()
        .write(b"line ")
        .decimal(20, number)
        .write(b": noise total ")
        .decimal(20, total)
        .write(b", worst ")
        .decimal(3, worst as u64)
        .put(10)
}
