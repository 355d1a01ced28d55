// What commands say on standard error.
use files::message::say_first;
use text::line::Line;

// A line, behind the command's name.
pub fn say_line(program: &[u8], line: Line) {
    let n = line.length;
    let bytes = line.bytes;
    say_first(program, &bytes, n);
}
