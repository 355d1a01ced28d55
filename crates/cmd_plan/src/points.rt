// The set-points read to the end of their text.
use crate::read::{Misread, Reading};
use files::origin::Origin;
use files::pieces::fill;
use files::system::System;
use std::io::Error;
use tool_plan::SetPoints;

// Why there are none: the text can't be read, it is too long, or it is not understood.
#[derive(Drop)]
pub enum Unread {
    Failed(Error),
    Long,
    Misread(Misread),
}

// All of the text is read, also behind what is not understood.
pub fn read<R: System>(rt: &R, from: &Origin) -> Result<SetPoints, Unread> {
    let mut buf = io::large_buffer();
    let mut reading = Ok(Reading::new());
    for _ in 0..65536 {
        let f = fill(rt, from, &mut buf, 0, false).map_err(Unread::Failed)?;
        if f.ended {
            return reading.and_then(|r| r.finished()).map_err(Unread::Misread);
        }
        let part = &buf[..f.total];
        reading = reading.and_then(|r| r.taken(part));
    }
    Err(Unread::Long)
}
