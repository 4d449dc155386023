// A list of batches, each handed the book of the one before. Lines of numbers: sections, retired wear and room of the first batch; 16 times
// wear and bends; its entry slice. Then for each further batch: its room and how many bytes the chart lacks at its end; its entry slice.
#![tactic(auto)]

ghost use Rattle.std.specs.Prelude.{◌≡◌, ◌≤◌, [], length, IsOk};

use arrayvec::ArrayVec;
use batch_text::{read_entries, read_opening, read_two};
use book::Book;
use case_text::LIMIT;
use case_text::lines::Lines;
use case_text::stop::Stop;
use std::io::Write;

// No batch here has more numbers, or more entries: the room of its answers bounds what a text may ask for.
const NUMBERS: usize = 2560;

const ENTRIES: usize = 512;

// Answers the batches, up to the first that is none.
pub fn batches<W: Write>(out: &mut W, chart: &[u8], text: &[u8]) -> Result<(), Stop>
    ensures cut { 65536 ≤ length text.now → result ≡ Err Stop.Batch }
    ensures none { text.now ≡ [] → IsOk result × (W.contents out.new ≡ W.contents out.old) }
{
    if LIMIT <= text.len() {
        return Err(Stop::Batch);
    }
    let mut lines = Lines(text);
    let Some(line) = lines.next() else {
        return Ok(());
    };
    let opening = line.and_then(read_opening).ok_or(Stop::Batch)?;
    let mut book = Book {
        sections: opening.sections,
        retired: opening.retired,
        ..Book::default()
    };
    columns(&mut lines, &mut book)?;
    let entries = lines.next().flatten();
    let mut book = batch(out, chart, entries, book, opening.room)?;
    // each turn takes two lines, so that no `for` fits
    while let Some(line) = lines.next() {
        let (room, cut) = line.and_then(read_two).ok_or(Stop::Batch)?;
        let kept = chart.len().saturating_sub(cut as usize);
        let Some(entries) = lines.next() else {
            return Err(Stop::Batch);
        };
        book = batch(out, &chart[..kept], entries, book, room)?;
    }
    Ok(())
}

// A line for each section's wear and bends.
fn columns(lines: &mut Lines<'_>, book: &mut Book) -> Result<(), Stop> {
    for (wear, bends) in book.wear.iter_mut().zip(book.bends.iter_mut()) {
        let line = lines.next().flatten();
        (*wear, *bends) = line.and_then(read_two).ok_or(Stop::Batch)?;
    }
    Ok(())
}

// The lines of a batch, with its entries' line: the book after it.
fn batch<W: Write>(
    out: &mut W,
    chart: &[u8],
    line: Option<&[u8]>,
    book: Book,
    room: u64,
) -> Result<Book, Stop> {
    let line = line.ok_or(Stop::Batch)?;
    let mut numbers = ArrayVec::<i64, NUMBERS>::new();
    let entries = read_entries(line, &mut numbers).ok_or(Stop::Batch)?;
    let mut answers = [0u64; ENTRIES];
    let lent = ENTRIES.min(room as usize);
    match estivolh::batch(book, chart, entries, &mut answers[..lent]) {
        Ok(after) => {
            answer_lines::answers(out, &answers, entries.len() / 5)?;
            answer_lines::book(out, after)?;
            Ok(after)
        }
        Err(refusal) => {
            answer_lines::refused_batch(out, refusal)?;
            answer_lines::book(out, book)?;
            Ok(book)
        }
    }
}
