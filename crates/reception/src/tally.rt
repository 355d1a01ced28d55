// The tally of the words that came.
ghost use Rattle.std.specs.Prelude.{◌≡◌, [], ◌+◌};
ghost use Rattle.steps.specs.Bits.{digit};
ghost use Rattle.reception.specs.Tally.{up_to, tally_of, with_figure, with_arrival};

// How many words there are, how many of them are noisy, and the worst figure.
#[derive(Clone, Copy)]
pub struct Tally {
    pub words: u64,
    pub noisy: u64,
    pub worst: u8,
}

// A count that stays at the largest number.
fn one_more(count: u64) -> u64
    ensures { result ≡ up_to (count + 1) }
{
    if count < u64::MAX { count + 1 } else { count }
}

fn one_more_if(more: bool, count: u64) -> u64
    ensures { result ≡ up_to (count + digit more) }
{
    if more { one_more(count) } else { count }
}

impl Tally {
    // Ruled out: one word; a figure above 0.
    pub fn none() -> Tally
        ensures { result ≡ tally_of [] }
    {
        Tally {
            words: 0,
            noisy: 0,
            worst: 0,
        }
    }

    // Ruled out: a clean word counted as noisy; the last figure for the worst.
    pub fn with_figure(self, figure: u8) -> Tally
        ensures { result ≡ with_figure self figure }
    {
        Tally {
            words: one_more(self.words),
            noisy: one_more_if(0 < figure, self.noisy),
            worst: self.worst.max(figure),
        }
    }

    // Ruled out: a word counted where none came; one left out.
    pub fn with_arrival(self, arrival: Option<u8>) -> Tally
        ensures { result ≡ with_arrival self arrival }
    {
        match arrival {
            Some(figure) => self.with_figure(figure),
            None => self,
        }
    }
}
