// A batch's entries on an accepted chart (01, "Charge, entry, book"): the ruling on an entry, 12 to 17, and the loop.
// The prepared chart is read and the scratch written: they stay two, since a struct of both would be lent for writing as a whole.
#![tactic(auto)]

ghost use Rattle.std.specs.Prelude.{◌≡◌, [], ◌≤◌, ◌/◌, length, Ok};
ghost use Rattle.chart.specs.Seen.{seen};
ghost use Rattle.book.specs.Books.{ValidBook};
ghost use Rattle.entries.specs.Entry.{entry_width};
ghost use Rattle.entries.specs.Ruling.{ruling_says};
ghost use Rattle.accounts.specs.Rulings.{entry_ruling};
ghost use Rattle.accounts.specs.Batch.{book_change, book_verdict};
ghost use Rattle.batch.specs.Tables.{on_tables, Changeable, step, step_of, worked, worked_of};

use accepted::AcceptedChart;
use book::CheckedBook;
use entries::{Change, ENTRY_WIDTH, Entry, KnownEntry};
use geometry::GridPlace;
use gradient::{Gradient, ValuedChart};
use lines::Line;
use refusal::Refusal;
use values::{Prepared, Scratch};

// 12 to 16, from section count, chart and entry alone.
fn ruling(
    prepared: &Prepared,
    sections: u64,
    e: Entry,
    scratch: &mut Scratch,
) -> Result<Change, Refusal>
    ensures { ruling_says result ≡ entry_ruling (on_tables (seen prepared.now.accepted.chart)) sections [] e }
{
    match e.known(sections)? {
        KnownEntry::Splice(section) => Ok(Change::Splice(section)),
        KnownEntry::Bend(section, method, place) => {
            let q = GridPlace::new(place.x, place.y).ok_or(Refusal::OffGrid)?;
            let value = values::located_value(prepared, method, q, scratch)?;
            let n = charge::charge(value)?;
            Ok(Change::Bend(section, n))
        }
    }
}

// 12 to 17: the last looks at the book, and meets bends only.
fn verdict(
    prepared: &Prepared,
    book: &CheckedBook,
    e: Entry,
    scratch: &mut Scratch,
) -> Result<Change, Refusal>
    ensures { ruling_says result ≡ book_verdict (on_tables (seen prepared.now.accepted.chart)) [] book.now.book e }
{
    let first = ruling(prepared, book.book.sections, e, scratch);
    let change = first?;
    if let Change::Bend(section, n) = change {
        if entries::is_full(book.book.total_wear(), book.book.bends[section], n) {
            return Err(Refusal::Full);
        }
    }
    Ok(change)
}

// The book after an accepted entry.
fn changed(book: CheckedBook, change: Change) -> CheckedBook
    requires fits { Changeable book.book (ruling_says (Ok change)) }
    requires valid { ValidBook (book_change book.book (ruling_says (Ok change))) }
    ensures { result.book ≡ book_change book.book (ruling_says (Ok change)) }
{
    let after = match change {
        Change::Bend(section, n) => book.book.charge(section, n),
        Change::Splice(section) => book.book.splice(section),
    };
    CheckedBook { book: after }
}

// One entry: its answer, and the book as it leaves it.
fn work_entry(prepared: &Prepared, book: &mut CheckedBook, e: Entry, scratch: &mut Scratch) -> u64
    ensures { step result book.new.book ≡ step_of (on_tables (seen prepared.now.accepted.chart)) [] book.old.book e }
{
    let last = verdict(prepared, book, e, scratch);
    if let Ok(change) = last {
        *book = changed(*book, change);
    }
    entries::answer_of(last)
}

// Every entry in order; the answers into the first elements of the lent slice. That they have room, this and two callers ask of what C lends.
// By answers, what the check does not find: the step of the loop over the rows.
fn work_all(
    prepared: &Prepared,
    book: CheckedBook,
    entries: &[i64],
    answers: &mut [u64],
) -> CheckedBook
    requires { length entries.now / entry_width ≤ length answers.old }
    ensures { worked result.book answers.new ≡ worked_of (on_tables (seen prepared.now.accepted.chart)) [] book.book entries.now answers.old }
{
    let mut scratch = Scratch::new();
    let mut b = book;
    for (i, row) in entries.chunks_exact(ENTRY_WIDTH).enumerate() {
        answers[i] = work_entry(prepared, &mut b, Entry::at(row, 0), &mut scratch);
    }
    b
}

// The same from the chart alone: what every entry needs of it is worked out once.
// Inlined, its rooms would stand beside those that reading the chart takes before it: so a batch takes less stack.
#[inline(never)]
pub fn work(
    accepted: &AcceptedChart,
    book: CheckedBook,
    entries: &[i64],
    answers: &mut [u64],
) -> CheckedBook
    requires { length entries.now / entry_width ≤ length answers.old }
    ensures { worked result.book answers.new ≡ worked_of (on_tables (seen accepted.now.chart)) [] book.book entries.now answers.old }
{
    // As in `values::value_on`: a room that lends both would meet the chart's lifetime in `Prepared`, which the borrow checker does not cover yet (tried).
    let mut lines = [Line::default(); lines::EDGES];
    lines::draw(&accepted.chart, &mut lines);
    let valued = ValuedChart {
        chart: accepted.chart,
    };
    let mut gradients = [Gradient::default(); gradient::VERTICES];
    gradient::estimate_gradients(&valued, &mut gradients);
    let prepared = Prepared {
        accepted: *accepted,
        lines: &lines,
        gradients: &gradients,
    };
    work_all(&prepared, book, entries, answers)
}
