// What the program prints: fields right-justified after spaces, lines that end with LF. Bytes into a lent buffer, as crate `columns` says.
#![tactic(auto, using(crate::proofs::Laws::texts))]

ghost use Rattle.std.specs.Prelude.{◌≡◌, ◌+◌, ◌*◌, ◌≤◌, length};
ghost use Rattle.report.specs.Lines.{answer_bytes, section_bytes, retired_bytes, refusal_bytes, book_bytes, answer_line, section_line, retired_line, refusal_line, answer_lines, section_lines, book_lines, output_of, program_sections};
ghost use Rattle.columns.specs.Laid.{laid};

use book::Book;
use text::COLUMNS;

// Columns of a field with wear or a bend count (`wide_field`).
const WIDE_COLUMNS: usize = 16;

// How many sections the program's book has.
pub const SECTIONS: usize = 2;

// Entry number and answer. Here and below the answer is where what was put ends.
#[tactic(auto, using(crate::proofs::Laws::texts), unfolding(crate::specs::Lines::answer_line))]
fn put_answer(out: &mut [u8], at: usize, number: u64, answer: u64) -> usize
    requires { at + answer_bytes ≤ length out.old }
    ensures { (result ≡ at + answer_bytes) × (out.new ≡ laid out.old at (answer_line number answer)) }
{
    let a = columns::put_number(out, at, COLUMNS, number);
    let b = columns::put_number(out, a, COLUMNS, answer);
    columns::put_line_end(out, b)
}

// Section, wear, bend count.
#[tactic(auto, using(crate::proofs::Laws::texts), unfolding(crate::specs::Lines::section_line))]
fn put_section(out: &mut [u8], at: usize, section: u64, wear: u64, bends: u64) -> usize
    requires { at + section_bytes ≤ length out.old }
    ensures { (result ≡ at + section_bytes) × (out.new ≡ laid out.old at (section_line section wear bends)) }
{
    let a = columns::put_number(out, at, COLUMNS, section);
    let b = columns::put_number(out, a, WIDE_COLUMNS, wear);
    let c = columns::put_number(out, b, WIDE_COLUMNS, bends);
    columns::put_line_end(out, c)
}

// Retired wear.
#[tactic(auto, using(crate::proofs::Laws::texts), unfolding(crate::specs::Lines::retired_line))]
fn put_retired(out: &mut [u8], at: usize, retired: u64) -> usize
    requires { at + retired_bytes ≤ length out.old }
    ensures { (result ≡ at + retired_bytes) × (out.new ≡ laid out.old at (retired_line retired)) }
{
    let a = columns::put_number(out, at, WIDE_COLUMNS, retired);
    columns::put_line_end(out, a)
}

// A refusal's number. It takes any number: a `Refusal` would ask more of callers.
#[tactic(auto, using(crate::proofs::Laws::texts), unfolding(crate::specs::Lines::refusal_line))]
pub fn put_refusal(out: &mut [u8], refusal: u64) -> usize
    requires { refusal_bytes ≤ length out.old }
    ensures { (result ≡ refusal_bytes) × (out.new ≡ laid out.old 0 (refusal_line refusal)) }
{
    let a = columns::put_number(out, 0, COLUMNS, refusal);
    columns::put_line_end(out, a)
}

// One line per answer, the entries numbered from 1.
fn put_answers(out: &mut [u8], answers: &[u64]) -> usize
    requires { answer_bytes * length answers.now ≤ length out.old }
    ensures { (result ≡ answer_bytes * length answers.now) × (out.new ≡ laid out.old 0 (answer_lines 1 answers.now)) }
{
    let mut at = 0;
    for (i, answer) in answers.iter().enumerate() {
        at = put_answer(out, at, i as u64 + 1, *answer);
    }
    at
}

// One line per section of the program's book, from 0: the number that the line says counts both columns, of which the program takes the first ones.
fn put_sections(out: &mut [u8], from: usize, book: Book) -> usize
    requires { from + section_bytes * program_sections ≤ length out.old }
    ensures { (result ≡ from + section_bytes * program_sections) × (out.new ≡ laid out.old from (section_lines book.wear book.bends program_sections)) }
{
    let mut at = from;
    for s in 0..SECTIONS {
        at = put_section(out, at, s as u64, book.wear[s], book.bends[s]);
    }
    at
}

// The sections, then retired wear.
#[tactic(auto, using(crate::proofs::Laws::texts), unfolding(crate::specs::Lines::book_lines))]
fn put_book(out: &mut [u8], at: usize, book: Book) -> usize
    requires { at + book_bytes ≤ length out.old }
    ensures { (result ≡ at + book_bytes) × (out.new ≡ laid out.old at (book_lines book)) }
{
    let end = put_sections(out, at, book);
    put_retired(out, end, book.retired)
}

// All that a run with no refusal prints: the answers, then the book.
#[tactic(auto, using(crate::proofs::Laws::texts), unfolding(crate::specs::Lines::output_of))]
pub fn put_output(out: &mut [u8], answers: &[u64], book: Book) -> usize
    requires { answer_bytes * length answers.now + book_bytes ≤ length out.old }
    ensures { (result ≡ answer_bytes * length answers.now + book_bytes) × (out.new ≡ laid out.old 0 (output_of answers.now book)) }
{
    let end = put_answers(out, answers);
    put_book(out, end, book)
}
