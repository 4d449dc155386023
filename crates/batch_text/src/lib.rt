// The lines of a batch text (crate `case_batches`): two or three numbers, or an entry slice, with a space between any two.
#![tactic(auto)]

ghost use Rattle.std.specs.Prelude.{◌≡◌, ◌≤◌, length, set, ltb, is_some, option_map, IsSome, IfSome};
ghost use Rattle.batch_text.specs.Batch.{two_of, opening_of, slice_of, within};

use arrayvec::ArrayVec;
use case_text::decimal::{decimal, unsigned};
use case_text::lines::split_once;

// The first line of a batch text.
#[derive(Clone, Copy)]
pub struct Opening {
    pub sections: u64,
    pub retired: u64,
    pub room: u64,
}

// A room and a cut, or a line of the book: `case_text::read_query` of numbers without a sign; a generic one would take the definition of a number.
#[tactic(auto, unfolding(crate::specs::Batch::two_of))]
pub fn read_two(line: &[u8]) -> Option<(u64, u64)>
    ensures { result ≡ two_of line.now }
{
    let (a, b) = split_once(line, b' ')?;
    Some((unsigned(a)?, unsigned(b)?))
}

#[tactic(auto, unfolding(crate::specs::Batch::opening_of))]
pub fn read_opening(line: &[u8]) -> Option<Opening>
    ensures { result ≡ opening_of line.now }
{
    let (sections, rest) = split_once(line, b' ')?;
    let sections = unsigned(sections)?;
    let (retired, room) = read_two(rest)?;
    Some(Opening {
        sections,
        retired,
        room,
    })
}

// The numbers of an entry slice, read into the room that is lent, in place of what was there; `None` where the line is broken, or has more of them
// than there is room for. An empty line has none.
pub fn read_entries<'a, const N: usize>(
    line: &[u8],
    room: &'a mut ArrayVec<i64, N>,
) -> Option<&'a [i64]>
    ensures { IfSome result (λ entries. length entries.now ≤ N) }
{
    room.clear();
    if !line.is_empty() {
        for part in line.split(|&b| b == b' ') {
            room.try_push(decimal(part)?).ok()?;
        }
    }
    Some(room.as_slice())
}

// Puts a number at a place of the room; `None` where there is no such place.
fn put(room: &mut [i64], at: usize, number: i64) -> Option<()>
    ensures is { is_some result ≡ ltb at (length room.old) }
    ensures room { IsSome result → room.new ≡ set room.old at number }
{
    if room.len() <= at {
        return None;
    }
    room[at] = number;
    Some(())
}

// The same into a lent slice: its length need not be known before the program runs, so that a line of any length fits one that is long enough.
// By `split_once`, whose clause has the definition's own `split_of`.
pub fn read_entries_in<'a>(line: &[u8], room: &'a mut [i64]) -> Option<&'a [i64]>
    ensures { option_map (λ entries. entries.now) result ≡ within (length room.old) (slice_of line.now) }
{
    if line.is_empty() {
        return Some(&room[..0]);
    }
    let mut count = 0;
    let mut rest = line;
    while let Some((part, more)) = split_once(rest, b' ') {
        put(room, count, decimal(part)?)?;
        count += 1;
        rest = more;
    }
    put(room, count, decimal(rest)?)?;
    Some(&room[..count + 1])
}

#[cfg(test)]
mod tests {
    use super::*;
    use std::test::Fail;

    // More of them than the drivers' room holds.
    #[test]
    fn all_numbers_are_read(rt: HostRuntime) -> Result<(), Fail> {
        let mut line = [b'7'; 5999];
        for byte in line.iter_mut().skip(1).step_by(2) {
            *byte = b' ';
        }
        let mut room = [0i64; 3000];
        assert_eq!(rt;
            read_entries_in(&line, &mut room).ok_or("broken")?,
            [7i64; 3000].as_slice()
        );
        assert!(rt; read_entries_in(&line, &mut [0i64; 2999]).is_none());
        Ok(())
    }

    #[test]
    fn a_space_parts_two_numbers(rt: HostRuntime) -> Result<(), Fail> {
        assert_eq!(rt;
            read_entries_in(b"-4 0", &mut [7i64; 2]).ok_or("broken")?,
            [-4i64, 0].as_slice()
        );
        assert_eq!(rt;
            read_entries_in(b"", &mut [7i64; 2]).ok_or("broken")?.len(),
            0
        );
        for line in [b" 7".as_slice(), b"7 ", b"7  7", b" ", b"1 +3", b"1,3"] {
            assert!(rt; read_entries_in(line, &mut [7i64; 9]).is_none());
        }
        Ok(())
    }
}
