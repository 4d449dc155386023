// What is read of an input. A read that fails, or that a signal interrupts, ends it.
ghost use Rattle.std.specs.Prelude.{◌≡◌, ◌≤◌, ◌<◌, ℕ, List, min, length, IsTrue, OnOk};
ghost use Rattle.std.specs.Io.KnownBytes.{Consumes, IsAtEnd};
ghost use Rattle.arrayvec.specs.ArrayVec.{array_vec_len};

use arrayvec::ArrayVec;
use std::io;
use std::io::Read;

// So many bytes are asked for at once.
pub(crate) const ROOM: usize = 8192;

// Reads until the input ends, or the text has so many bytes or is full. What came before a failing read is there.
pub(crate) fn fill<R: Read, const N: usize>(
    input: &mut R,
    room: &mut [u8; ROOM],
    limit: usize,
    text: &mut ArrayVec<u8, N>,
) -> io::Result<()>
    ensures bound { array_vec_len text.new ≤ min limit N }
    ensures bytes { Consumes (R.remaining input.old) (R.remaining input.new) text.new.items }
    ensures whole { OnOk result (array_vec_len text.new < min limit N → IsAtEnd (R.remaining input.new)) }
{
    text.clear();
    let most = limit.min(N);
    while text.len() < most {
        let space = room.len().min(most - text.len());
        let n = input.read(&mut room[..space])?;
        if n == 0 {
            return Ok(());
        }
        let _fits = text.try_extend_from_slice(&room[..n]);
    }
    Ok(())
}

// Reads so many bytes and drops them. Whether they were there.
pub(crate) fn skip<R: Read>(input: &mut R, room: &mut [u8; ROOM], size: usize) -> bool
    ensures { IsTrue result → (bytes : List ℕ) × (length bytes ≡ size) × Consumes (R.remaining input.old) (R.remaining input.new) bytes }
{
    let mut left = size;
    while left > 0 {
        let space = room.len().min(left);
        match input.read(&mut room[..space]) {
            Ok(n) if n > 0 => left -= n,
            _ => return false,
        }
    }
    true
}
