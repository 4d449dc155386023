// The cases, each answered: those of folders, or packed ones on standard input.
#![tactic(auto)]

mod case;
mod folder;
mod packed;
#[cfg(test)]
mod tests;

use case_files::Texts;
use std::io;
use std::io::Write;
use std::rt::{Env, Files};

// The case folders among the arguments; with no argument the packed cases. Each case is read into the same rooms.
pub fn answer<R: Files + Env + Input, W: Write>(rt: &R, out: &mut W) -> io::Result<()> {
    let mut room = Texts::default();
    if !folder::cases(rt, out, &mut room)? {
        packed::cases(rt, out, &mut room)?;
    }
    Ok(())
}
