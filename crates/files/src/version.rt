// The version of the project's programs: that of the struct of a module, `QSM_VERSION` in the header, and a number that counts from 0 beside it.
use crate::system::{Sink, System};

// A program's name and its version, as a line on standard output.
pub fn write_version<R: System>(rt: &R, program: &[u8]) -> std::io::Result<()> {
    let output = Sink::output(rt);
    output.write_all(program)?;
    output.write_all(b" 5.0\n")
}
