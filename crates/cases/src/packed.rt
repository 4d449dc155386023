// Packed cases on standard input.
use crate::case;
use case_files::Texts;
use case_files::packed::read_texts;
use std::io;
use std::io::Write;

// A loop has to end, and nothing says that the input does: its bound is a number that no run uses up. Whoever sends a case may wait for its
// answers before sending the next: they are handed out before it is read. A flush that fails ends nothing, as with folders.
pub fn cases<R: Input, W: Write>(rt: &R, out: &mut W, room: &mut Texts) -> io::Result<()> {
    let mut input = rt.reader();
    for _ in 0..u64::MAX {
        match read_texts(&mut input, room) {
            Ok(Some(texts)) => case::print(out, texts)?,
            Ok(None) => break,
            Err(stop) => return case::print_stop(out, stop),
        }
        let _flushed = out.flush();
    }
    Ok(())
}
