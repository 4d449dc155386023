// Case folders, by their names among the arguments.
use crate::case;
use case_files::Texts;
use case_files::folder::{folder_name, read_case};
use std::io;
use std::io::Write;
use std::rt::{Env, Files};

// Whether there are any: the first is argument 1. A case's answers are handed out before the next is read: its files may be what they are written
// to. A flush that fails ends nothing: who must know of it flushes after the call.
pub fn cases<R: Files + Env, W: Write>(rt: &R, out: &mut W, texts: &mut Texts) -> io::Result<bool> {
    // `Env::arg` writes into lent room
    let mut space = [0u8; 4096];
    for i in 1..usize::MAX {
        let Some(folder) = folder_name(rt, i, &mut space) else {
            return Ok(i > 1);
        };
        read_case(rt, folder, texts);
        case::print(out, texts)?;
        let _flushed = out.flush();
    }
    Ok(true)
}
