// A trace played beside a log, both read piece by piece: what is left of a piece is less than a record or an answer, and is carried to the
// start of its buffer. That parts give what the whole gives is the law `InParts` of the judge.
use crate::run::{Failure, Next, Run};
use crate::show::show;
use answers::Field;
use files::origin::Origin;
use files::system::{Sink, System};

// Whether the log has bytes after its last answer.
fn surplus<R: System>(
    rt: &R,
    from: &Origin,
    bytes: &mut [u8],
    run: &mut Run,
) -> Result<bool, Failure> {
    if run.log.from < run.log.to {
        return Ok(true);
    }
    run.log = run.log.read_on(rt, from, bytes).ok_or(Failure::Log)?;
    Ok(run.log.from < run.log.to)
}

// Shows those bytes, which are a wrong answer.
fn tell_surplus(to: &Sink, bytes: &[u8], run: &mut Run) -> Result<(), Failure> {
    let end = run.log.to.min(bytes.len());
    let from = run.log.from.min(end);
    if !show(to, run.records, Field::Kind, b"", b"", 0, &bytes[from..end]) {
        return Err(Failure::Output);
    }
    run.wrong = true;
    Ok(())
}

// The end of the trace, or its stop: a log that was right so far is looked at to its end.
fn finish<R: System>(
    rt: &R,
    from: &Origin,
    to: &Sink,
    bytes: &mut [u8],
    run: &mut Run,
) -> Result<(), Failure> {
    if run.wrong {
        return Ok(());
    }
    if surplus(rt, from, bytes, run)? {
        tell_surplus(to, bytes, run)?;
    }
    Ok(())
}

// Plays what is there, and reads more of the input that has no more. At the end, the refusal that stopped the trace or 0.
fn turn<R: System>(
    rt: &R,
    trace: &Origin,
    log: &Origin,
    to: &Sink,
    run: &mut Run,
    buf: &mut [u8],
    bytes: &mut [u8],
) -> Result<Option<u8>, Failure> {
    let end = run.trace.to.min(buf.len());
    let from = run.trace.from.min(end);
    let stop = run.log.to.min(bytes.len());
    let first = run.log.from.min(stop);
    let next = run.advance(to, &buf[from..end], &bytes[first..stop])?;
    match next {
        Next::Trace => {
            run.trace = run.trace.read_on(rt, trace, buf).ok_or(Failure::Trace)?;
            Ok(None)
        }
        Next::Log => {
            run.log = run.log.read_on(rt, log, bytes).ok_or(Failure::Log)?;
            Ok(None)
        }
        Next::Done(why) => {
            finish(rt, log, to, bytes, run)?;
            Ok(Some(why))
        }
    }
}

// Judges what two inputs give, and shows the first wrong answer. At the end, the refusal that stopped the trace or 0.
pub fn judge<R: System>(
    rt: &R,
    trace: &Origin,
    log: &Origin,
    to: &Sink,
    run: &mut Run,
) -> Result<u8, Failure> {
    let mut buf = io::large_buffer();
    let mut bytes = io::large_buffer();
    for _ in 0..u64::MAX {
        if let Some(stop) = turn(rt, trace, log, to, run, &mut buf, &mut bytes)? {
            return Ok(stop);
        }
    }
    Err(Failure::TooLong)
}
