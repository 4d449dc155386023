// What the program reads: the bytes of chart.txt, and of the log its first bytes and its size.
ghost use Rattle.std.specs.Prelude.{◌≡◌, ◌≤◌, ◌<◌, [], length, IfOk, OnOk, IfSome};
ghost use Rattle.std.specs.Io.Iter.{u64_saturate};
ghost use Rattle.std.specs.Io.KnownBytes.{Consumes, IsAtEnd};
ghost use Rattle.arrayvec.specs.ArrayVec.{array_vec_len};
ghost use Rattle.bends.specs.Input.{broken_size, Counted, Handed, Front, Whole, Known};

use arrayvec::ArrayVec;
use std::fs::File;
use std::io;
use std::io::Read;
use std::rt::Files;

// So many bytes of a text are kept: no accepted chart and no accepted log has more.
const LIMIT: usize = 65536;

// A size that no accepted log has, of one whose reading failed: it is refused as a whole, by its length.
const BROKEN: usize = 1;

// The first bytes of a text. Of a fixed size: there is no heap, so that no text is too much for it.
pub type Text = ArrayVec<u8, 65536>;

// The first bytes of a log, and how many it has.
#[derive(Default, Drop)]
pub struct Log {
    pub kept: Text,
    pub size: usize,
}

// Reads chart.txt, or as much of it as is kept. A file that is missing or cannot be read counts as empty. The test program reads its files so too
// (case_files); a crate for both would stand between this program and the library for ten lines.
// Its room is large, and the program's other rooms are lent: inlined it would be held to the end.
#[inline(never)]
pub fn read_chart<R: Files>(rt: &R, chart: &mut Text)
    ensures { array_vec_len chart.new ≤ LIMIT }
{
    chart.clear();
    let Ok(mut file) = File::open(rt, "chart.txt") else {
        return;
    };
    read_file(&mut file, chart);
}

// Where a read fails no part of the file counts.
fn read_file<R: Read>(file: &mut R, text: &mut Text)
    ensures bound { array_vec_len text.new ≤ LIMIT }
    ensures known { IfSome (R.remaining file.old) (λ bytes. Front LIMIT bytes text.new.items) }
{
    let mut room = [0u8; LIMIT];
    match front(file, &mut room, text) {
        Ok(()) => {}
        Err(_) => text.clear(),
    }
}

// Reads the log. Where a read fails, no part of it counts.
#[inline(never)]
pub fn read_log<R: Read>(input: &mut R, log: &mut Log)
    ensures handed { Handed LIMIT (array_vec_len log.new.kept) log.new.size }
    ensures bound { array_vec_len log.new.kept ≤ LIMIT }
    ensures known { IfSome (R.remaining input.old) (λ bytes. Known LIMIT bytes log.new.kept.items log.new.size) }
{
    match fill(input, &mut log.kept) {
        Ok(size) => log.size = size,
        Err(_) => broken_log(log),
    }
}

fn broken_log(log: &mut Log)
    ensures { (log.new.kept.items ≡ []) × (log.new.size ≡ broken_size) }
{
    log.kept.clear();
    log.size = BROKEN;
}

// Keeps the first bytes of the input, reads the rest and drops it: how many there are. The rest may be endless, and takes no memory.
// The first failing read ends it: a broken connection fails once and then ends.
fn fill<R: Read>(input: &mut R, kept: &mut Text) -> io::Result<usize>
    ensures counted { IfOk result (λ size. Counted LIMIT (array_vec_len kept.new) size) }
    ensures bound { array_vec_len kept.new ≤ LIMIT }
    ensures known { IfOk result (λ size. IfSome (R.remaining input.old) (λ bytes. Whole LIMIT bytes kept.new.items size)) }
{
    let mut room = [0u8; LIMIT];
    front(input, &mut room, kept)?;
    let n = kept.len();
    if n < LIMIT {
        return Ok(n);
    }
    let rest = count(input, &mut room)?;
    Ok(n.saturating_add(rest))
}

// Reads until the input ends, or as much as is kept. A read that fails, or that a signal interrupts, ends it.
fn front<R: Read>(input: &mut R, room: &mut [u8; LIMIT], text: &mut Text) -> io::Result<()>
    ensures bound { array_vec_len text.new ≤ LIMIT }
    ensures bytes { Consumes (R.remaining input.old) (R.remaining input.new) text.new.items }
    ensures whole { OnOk result (array_vec_len text.new < LIMIT → IsAtEnd (R.remaining input.new)) }
{
    text.clear();
    while text.len() < LIMIT {
        let space = LIMIT - text.len();
        let n = input.read(&mut room[..space])?;
        if n == 0 {
            return Ok(());
        }
        let _fits = text.try_extend_from_slice(&room[..n]);
    }
    Ok(())
}

// Reads the input to its end: how many bytes came. A loop has to end, and nothing says that the input does: it stops at a number that no log
// reaches.
fn count<R: Read>(input: &mut R, room: &mut [u8; LIMIT]) -> io::Result<usize>
    ensures { IfOk result (λ n. IfSome (R.remaining input.old) (λ bytes. n ≡ u64_saturate (length bytes))) }
{
    let mut size = 0usize;
    while size < usize::MAX {
        let n = input.read(room)?;
        if n == 0 {
            return Ok(size);
        }
        size = size.saturating_add(n);
    }
    Ok(size)
}
