// The program's log read: five fields and LF per entry, and the refusals 3, 4, 5 of a log.
#![tactic(auto)]

ghost use Rattle.std.specs.Prelude.{is_some, ◌≡◌, ◌*◌, ◌≤◌, length, take};
ghost use Rattle.tables.specs.Table.{table_of, given};
ghost use Rattle.entries.specs.Entry.{entry_width};
ghost use Rattle.log_text.specs.Log.{entries_max, log_of, said_log, log_left};

use entries::ENTRY_WIDTH;
use refusal::Refusal;

// How many bytes an entry has, and how many entries a log has at most.
const ENTRY_BYTES: usize = 41;

pub const ENTRIES_MAX: usize = 512;

// How many numbers the longest log has, and so the arrays that hold them: no heap.
pub const NUMBERS_MAX: usize = ENTRY_WIDTH * ENTRIES_MAX;

// The numbers of n entries into the first elements of a slice. None where a field or a line end is malformed;
// a byte that is missing makes them so.
#[tactic(auto, using(crate::proofs::Laws::table_short))]
fn fields(bytes: &[u8], n: usize, numbers: &mut [i64]) -> Option<()>
    requires { (n ≤ entries_max) × (entry_width * entries_max ≤ length numbers.old) }
    ensures { table_of entry_width n bytes.now ≡ given (is_some result) (take (entry_width * n) numbers.new) }
{
    if bytes.len() < ENTRY_BYTES * n {
        return None;
    }
    tables::table(bytes, 0, ENTRY_WIDTH, n, &mut numbers[..ENTRY_WIDTH * n])
}

// A log of `size` bytes, of which the first that an accepted log can have are enough: its entries' numbers into the first elements
// of the lent slice, and how many entries they are; or the first of 3, 4, 5 that meets it. A refused log leaves the slice as it was.
// `size` is no length of `bytes`: a log may be longer than what is kept of it.
#[tactic(auto, unfolding(crate::specs::Log::log_of))]
pub fn read_log(size: usize, bytes: &[u8], entries: &mut [i64]) -> Result<usize, Refusal>
    requires { entry_width * entries_max ≤ length entries.old }
    ensures { said_log result entries.new ≡ log_left (log_of size bytes.now) entries.old }
{
    if size % ENTRY_BYTES != 0 {
        return Err(Refusal::Length);
    }
    let n = size / ENTRY_BYTES;
    if ENTRIES_MAX < n {
        return Err(Refusal::Counts);
    }
    let mut numbers = [0; NUMBERS_MAX];
    fields(bytes, n, &mut numbers).ok_or(Refusal::Field)?;
    let k = ENTRY_WIDTH * n;
    entries[..k].copy_from_slice(&numbers[..k]);
    Ok(n)
}
