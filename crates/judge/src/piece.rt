// A piece of a file in a buffer: what of it is still to be looked at is carried to the start before more is read.
use files::origin::Origin;
use files::pieces::{carry, fill};
use files::system::System;

// The bytes of a buffer from one place up to another, which are still to be looked at, and whether its input has ended.
#[derive(Clone, Copy)]
pub struct Piece {
    pub from: usize,
    pub to: usize,
    pub ended: bool,
}

impl Piece {
    // Nothing yet.
    pub fn nothing() -> Piece {
        Piece {
            from: 0,
            to: 0,
            ended: false,
        }
    }

    // So many bytes further, within the piece.
    pub fn further(self, n: usize) -> Piece {
        let from = self.from.min(self.to);
        if n < self.to - from {
            Piece {
                from: from + n,
                ..self
            }
        } else {
            Piece {
                from: self.to,
                ..self
            }
        }
    }

    // With what comes of its input; none where that can't be read.
    pub fn read_on<R: System>(self, rt: &R, from: &Origin, buf: &mut [u8]) -> Option<Piece> {
        let have = carry(buf, self.from, self.to);
        let f = fill(rt, from, buf, have, self.ended).ok()?;
        Some(Piece {
            from: 0,
            to: f.total,
            ended: f.ended,
        })
    }
}
