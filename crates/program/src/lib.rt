// What 01's program prints for a chart and a log, as functions on slices.
#![tactic(auto)]

ghost use Rattle.std.specs.Prelude.{◌≡◌, ◌≤◌, length};
ghost use Rattle.refusal.specs.Number.{number};
ghost use Rattle.book.specs.Returned.{returned_of};
ghost use Rattle.accounts.specs.Batch.{outcome, batch_of};
ghost use Rattle.estivolh.specs.Account.{queries};
ghost use Rattle.report.specs.Lines.{refusal_line};
ghost use Rattle.program.specs.Program.{program_book, output_max, entries_printed, refusal_printed, printed_of, Printed, WholeEntries};

use book::Book;
use entries::ENTRY_WIDTH;
use refusal::Refusal;

// What refuses a chart and a log that is refused: chart first.
#[tactic(auto, using(crate::proofs::Laws::refusals))]
fn first_refusal(chart: &[u8], log: Refusal) -> Refusal
    ensures { refusal_line (number result) ≡ refusal_printed chart.now (number log) }
{
    match estivolh::check(chart) {
        Ok(()) => log,
        Err(refusal) => refusal,
    }
}

// A log's entries on a fresh book, under a chart: the book after them, and an answer for each.
fn batch_on_fresh(chart: &[u8], entries: &[i64], answers: &mut [u64]) -> Result<Book, Refusal>
    ensures { outcome (returned_of result program_book) answers.new ≡ batch_of queries program_book chart.now entries.now answers.old }
{
    let book = estivolh::fresh(report::SECTIONS as u64)?;
    estivolh::batch(book, chart, entries, answers)
}

// The entries of a log on a fresh book: the answers and the book, or what refuses the chart. The batch checks the chart, so that a run
// checks it once.
fn print_entries(chart: &[u8], entries: &[i64], out: &mut [u8]) -> usize
    requires whole { WholeEntries entries.now }
    requires room { output_max ≤ length out.old }
    ensures { Printed out.old (entries_printed chart.now entries.now) out.new result }
{
    let mut answers = [0u64; log_text::ENTRIES_MAX];
    match batch_on_fresh(chart, entries, &mut answers) {
        Ok(book) => {
            let n = entries.len() / ENTRY_WIDTH;
            report::put_output(out, &answers[..n], book)
        }
        Err(refusal) => report::put_refusal(out, refusal.number()),
    }
}

// What the program prints for a chart and a log of `size` bytes, of which the first that an accepted log can have are enough.
// How many bytes of `out` that is. `size` is no length of `log`: a log may be longer than what is kept of it.
pub fn print(chart: &[u8], size: usize, log: &[u8], out: &mut [u8]) -> usize
    requires { output_max ≤ length out.old }
    ensures { Printed out.old (printed_of chart.now size log.now) out.new result }
{
    let mut entries = [0; log_text::NUMBERS_MAX];
    match log_text::read_log(size, log, &mut entries) {
        Ok(n) => print_entries(chart, &entries[..ENTRY_WIDTH * n], out),
        Err(refusal) => report::put_refusal(out, first_refusal(chart, refusal).number()),
    }
}
