// The book: wear and bend counts of a rope's sections, and the retired wear (01, "Charge, entry, book"). It is changed here and decides nothing.
#![tactic(auto)]

ghost use Rattle.std.specs.Prelude.{◌≡◌, ◌≤◌};
ghost use Rattle.whole.specs.First.{some};
ghost use Rattle.book.specs.Returned.{returned_of};
ghost use Rattle.book.specs.Books.{section_max, account_max, total_wear, wear_above, count_above, stray_at, bad_sections, bad_book, zero_book, fresh_book, charge_book, splice_book, ChargeFits, SpliceFits};

use refusal::Refusal;

mod checked;

pub use checked::CheckedBook;

// The account's limit (`account_max`), and the most sections that a book has (`section_max`).
pub const LIMIT: u64 = 1_000_000_000_000;

const SECTION_MAX: usize = 16;

// Two arrays side by side, of a fixed size, as C lends and takes back a book's numbers; there is no heap.
// Columns of a fixed length: there is no heap, and a book is copied.
#[derive(Clone, Copy)]
pub struct Book {
    pub sections: u64,
    pub wear: [u64; SECTION_MAX],
    pub bends: [u64; SECTION_MAX],
    pub retired: u64,
}

// The book of 0 sections, all zero: it stands beside refusal 1 of a fresh book. Written out, so that the edit `default_with_sections` has what to change.
impl Default for Book {
    ghost use Rattle.std.specs.Prelude.{◌≡◌};
    ghost use Rattle.book.specs.Books.{zero_book};

    ghost is_default = { λ b. b ≡ zero_book 0 };

    fn default() -> Book {
        zero_book(0)
    }
}

// Sections not 1 to 16.
fn bad_sections(sections: u64) -> bool
    ensures { result ≡ bad_sections sections }
{
    sections < 1 || sections > SECTION_MAX as u64
}

// A book of so many sections, all zero.
fn zero_book(sections: u64) -> Book
    ensures { result ≡ zero_book sections }
{
    Book {
        sections,
        wear: [0; SECTION_MAX],
        bends: [0; SECTION_MAX],
        retired: 0,
    }
}

// A fresh book; where the sections are not 1 to 16, refusal 1.
pub fn fresh(sections: u64) -> Result<Book, Refusal>
    ensures { returned_of result (zero_book 0) ≡ fresh_book sections }
{
    if bad_sections(sections) {
        return Err(Refusal::Book);
    }
    Ok(zero_book(sections))
}

// Whether wear and retired wear together are above the limit. Each number is held against what is left of the limit before it is taken off: no sum can wrap.
#[tactic(auto, using(crate::specs::Sums::sum_steps))]
fn wear_above(wear: &[u64], retired: u64) -> bool
    ensures { result ≡ wear_above wear.now retired }
{
    if retired > LIMIT {
        return true;
    }
    let mut left = LIMIT - retired;
    for &w in wear {
        if w > left {
            return true;
        }
        left -= w;
    }
    false
}

// Whether some bend count is above the limit.
#[tactic(auto, using(whole::proofs::Scans::scans))]
fn some_count_above(bends: &[u64; SECTION_MAX]) -> bool
    ensures { result ≡ some (count_above bends.now) section_max }
{
    (0..SECTION_MAX).any(|i| bends[i] > LIMIT)
}

// Whether some section at or past the section count is not all zero.
// By answers, what the check does not find: what a closure of three tests computes.
fn some_stray(book: &Book) -> bool
    ensures { result ≡ some (stray_at book.now.sections book.now.wear book.now.bends) section_max }
{
    (0..SECTION_MAX).any(|i| i as u64 >= book.sections && (book.wear[i] != 0 || book.bends[i] != 0))
}

// Whether refusal 1 meets the book.
#[tactic(auto, unfolding(crate::specs::Books::bad_book))]
fn is_bad(book: &Book) -> bool
    ensures { result ≡ bad_book book.now }
{
    bad_sections(book.sections)
        || wear_above(&book.wear, book.retired)
        || some_count_above(&book.bends)
        || some_stray(book)
}

impl Book {
    // Wear of all sections plus retired wear.
    #[tactic(auto, using(crate::specs::Sums::sum_steps))]
    pub fn total_wear(&self) -> u64
        requires { total_wear self.now ≤ account_max }
        ensures { result ≡ total_wear self.now }
    {
        let mut total = self.retired;
        for wear in self.wear {
            total += wear;
        }
        total
    }

    // A bend of charge n: n more wear in the section, and one bend more.
    pub fn charge(mut self, section: usize, n: u64) -> Book
        requires { ChargeFits self section n }
        ensures { result ≡ charge_book self section n }
    {
        self.wear[section] += n;
        self.bends[section] += 1;
        self
    }

    // A splice: the section's wear is retired, and its numbers begin anew.
    pub fn splice(mut self, section: usize) -> Book
        requires { SpliceFits self section }
        ensures { result ≡ splice_book self section }
    {
        self.retired += self.wear[section];
        self.wear[section] = 0;
        self.bends[section] = 0;
        self
    }
}
