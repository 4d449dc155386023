// Demand 3 of the public calls: specs/Demand.antt, and of the Results that they hand out specs/Called.antt. Below, a function that makes such calls; what it
// promises is read off the theorem.
#![tactic(auto)]

ghost use Rattle.std.specs.Prelude.{◌≤◌, length};
ghost use Rattle.book.specs.Books.{section_max};
ghost use Rattle.demand.specs.Demand.{Divisible, Alike};

use book::Book;
use entries::ENTRY_WIDTH;

// The books of a log worked as one batch, and as two.
#[derive(Clone, Copy)]
pub struct Both {
    pub whole: Book,
    pub divided: Book,
}

// The same entries from a fresh book, as one batch and divided in two after the first `cut` of them: same book, same answers.
pub fn both_ways(
    sections: u64,
    chart: &[u8],
    entries: &[i64],
    cut: usize,
    whole: &mut [u64],
    first: &mut [u64],
    second: &mut [u64],
) -> Both
    requires sections { (1 ≤ sections) × (sections ≤ section_max) }
    requires divisible { Divisible chart.now (length entries.now) cut (length whole.old) (length first.old) (length second.old) }
    ensures { Alike sections chart.now entries.now cut result whole.new first.new second.new }
{
    let book = estivolh::fresh(sections).unwrap_or_default();
    let once = estivolh::batch(book, chart, entries, whole).unwrap_or(book);
    let at = cut * ENTRY_WIDTH;
    let between = estivolh::batch(book, chart, &entries[..at], first).unwrap_or(book);
    let last = estivolh::batch(between, chart, &entries[at..], second).unwrap_or(between);
    Both {
        whole: once,
        divided: last,
    }
}
