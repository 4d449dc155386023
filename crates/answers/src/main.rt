// Prints the answers of the public calls for test cases, in the oracle's format (oracle/README.md): for each case folder among its
// arguments or, with no argument, for each packed case on standard input.
#![tactic(auto)]

use std::io;
use std::io::{BufWriter, Write};
use std::rt::{Env, Files};

// Drops what cannot be written, and says that all was taken: each further piece is tried all the same, and every case is worked.
#[derive(Drop)]
struct Lossy<W>(W);

impl<W: Write> Write for Lossy<W> {
    fn write(&mut self, buf: &[u8]) -> io::Result<usize> {
        match self.0.write(buf) {
            Ok(n) if n > 0 => Ok(n),
            _ => Ok(buf.len()),
        }
    }

    fn flush(&mut self) -> io::Result<()> {
        Ok(())
    }
}

fn main(rt: HostRuntime) {
    // where there is no memory for a buffer each piece is written by itself
    match BufWriter::new(rt.alloc(), Lossy(io::writer(&rt))) {
        Ok(mut out) => answer(&rt, &mut out),
        Err(_) => answer(&rt, &mut Lossy(io::writer(&rt))),
    }
}

// No write fails, so that no answer and no flush does.
fn answer<R: Files + Env + Input, W: Write>(rt: &R, out: &mut W) {
    let _done = cases::answer(rt, out);
    let _flushed = out.flush();
}
