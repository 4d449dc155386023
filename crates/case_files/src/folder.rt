// The files of a case folder.
ghost use Rattle.std.specs.Prelude.{◌≡◌, ◌≤◌, ◌<◌, length, min, IsOk, IfSome, IfNone};
ghost use Rattle.arrayvec.specs.ArrayVec.{array_vec_len};
ghost use Rattle.case_files.specs.Path.{path_of};
ghost use Rattle.case_files.specs.Files.{FrontOrNone};

use crate::read::{ROOM, fill};
use crate::{Text, Texts};
use arrayvec::ArrayString;
use case_text::LIMIT;
use std::env::FillError;
use std::fs::File;
use std::io;
use std::io::Read;
use std::rt::{Env, Files};

// So many bytes of rooms.txt `read_case` reads at most: a list of rooms has fewer (`case_rooms`), so that no more is waited for.
const ROOMS: usize = 4096;

// Argument i as a folder's name: none, and so no file's, where it is too long for `space` or is no UTF-8. `None` past the last argument.
// Not by `env::args`, which fails as a whole at an argument that is no UTF-8.
pub fn folder_name<'a, E: Env>(env: &E, i: usize, space: &'a mut [u8]) -> Option<&'a str>
    ensures { IfSome result (λ name. length name.now ≤ length space.old) }
{
    match env.arg(i, space) {
        Ok(n) => Some(str::from_utf8(&space[..n]).unwrap_or("")),
        Err(FillError::TooLong) => Some(""),
        Err(FillError::NotPresent) => None,
    }
}

// Reads the texts into the rooms that are lent, in place of what was there.
pub fn read_case<R: Files>(rt: &R, folder: &str, texts: &mut Texts)
    ensures chart { array_vec_len texts.new.chart ≤ 65536 }
    ensures queries { array_vec_len texts.new.queries ≤ 65536 }
    ensures rooms { array_vec_len texts.new.rooms ≤ 4096 }
    ensures batches { array_vec_len texts.new.batches ≤ 65536 }
    ensures log { array_vec_len texts.new.log ≤ 65536 }
{
    read_text(rt, folder, "chart.txt", LIMIT, &mut texts.chart);
    read_text(rt, folder, "queries.txt", LIMIT, &mut texts.queries);
    read_text(rt, folder, "rooms.txt", ROOMS, &mut texts.rooms);
    read_text(rt, folder, "batch.txt", LIMIT, &mut texts.batches);
    read_text(rt, folder, "log.txt", LIMIT, &mut texts.log);
}

// The texts for a caller to whom rooms.txt is no list of rooms: of each as much as there is room for. The `Result` is what callers take, and no error.
pub fn read_texts<R: Files>(rt: &R, folder: &str) -> io::Result<Texts>
    ensures { IsOk result }
{
    let mut texts = Texts::default();
    read_text(rt, folder, "chart.txt", LIMIT, &mut texts.chart);
    read_text(rt, folder, "queries.txt", LIMIT, &mut texts.queries);
    read_text(rt, folder, "rooms.txt", LIMIT, &mut texts.rooms);
    read_text(rt, folder, "batch.txt", LIMIT, &mut texts.batches);
    read_text(rt, folder, "log.txt", LIMIT, &mut texts.log);
    Ok(texts)
}

// A file of the folder, or its first bytes, read and not converted. One that is missing or cannot be read counts as empty.
fn read_text<R: Files>(rt: &R, folder: &str, file: &str, limit: usize, text: &mut Text)
    ensures { array_vec_len text.new ≤ limit }
{
    text.clear();
    let Some(path) = path(folder, file) else {
        return;
    };
    let Ok(mut file) = File::open(rt, path.as_str()) else {
        return;
    };
    read_file(&mut file, limit, text);
}

// Where a read fails no part of the file counts.
fn read_file<R: Read>(file: &mut R, limit: usize, text: &mut Text)
    ensures bound { array_vec_len text.new ≤ limit }
    ensures known { IfSome (R.remaining file.old) (λ bytes. FrontOrNone (min limit 65536) bytes text.new.items) }
{
    let mut room = [0u8; ROOM];
    match fill(file, &mut room, limit, text) {
        Ok(()) => {}
        Err(_) => text.clear(),
    }
}

// No path of a file is longer than what is lent here, and one that is opens nothing.
fn path(folder: &str, file: &str) -> Option<ArrayString<4096>>
    ensures some { IfSome result (λ p. p.bytes ≡ path_of folder.now file.now) }
    ensures none { IfNone result (4096 < length (path_of folder.now file.now)) }
{
    let mut path = ArrayString::new();
    if !folder.is_empty() {
        path.try_push_str(folder).ok()?;
        path.try_push_str("/").ok()?;
        path.try_push_str(file).ok()?;
    }
    Some(path)
}

#[cfg(test)]
mod tests {
    use super::*;
    use std::test::Fail;
    use std::{env, fs, process};

    // More of rooms.txt than `read_case` reads, and less than there is room for.
    #[test]
    fn all_of_rooms_is_read(rt: HostRuntime) -> Result<(), Fail> {
        let name = format!(in rt.alloc(); "estivolh-case-{}", process::id(rt.process()))?;
        let folder = env::temp_dir(&rt)?.join(rt.alloc(), name.as_str())?;
        let file = folder.join(rt.alloc(), "rooms.txt")?;
        fs::create_dir(&rt, folder.as_path())?;
        let written = fs::write(&rt, file.as_path(), [b'7'; 5000]);
        let texts = read_texts(&rt, folder.as_str());
        let mut case = Texts::default();
        read_case(&rt, folder.as_str(), &mut case);
        fs::remove_dir_all(&rt, folder.as_path())?;
        written?;
        let texts = texts?;
        assert_eq!(rt; texts.rooms.as_slice(), [b'7'; 5000].as_slice());
        assert!(rt; texts.chart.is_empty(), "chart.txt is missing");
        assert_eq!(rt; case.rooms.len(), ROOMS);
        Ok(())
    }
}
