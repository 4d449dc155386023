// A book that a batch may work on.
ghost use Rattle.book.specs.Books.{ValidBook};

use crate::Book;
use refusal::Refusal;

// A book that refusal 1 does not meet.
#[derive(Clone, Copy)]
pub struct CheckedBook {
    pub book: Book,
    pub ghost valid: { ValidBook book },
}

impl CheckedBook {
    ghost use Rattle.std.specs.Prelude.{◌≡◌, IfOk};
    ghost use Rattle.refusal.specs.Number.{refusal_of};
    ghost use Rattle.book.specs.Books.{book_refusal};

    // Any book that a caller can hold, or refusal 1. `new` and no `TryFrom`, as of `Counts`: it answers with a refusal of the papers.
    // By answers, what the check does not find: ValidBook from the test and the lengths of the arrays.
    pub fn new(book: Book) -> Result<CheckedBook, Refusal>
        ensures refusal { refusal_of result ≡ book_refusal book }
        ensures kept { IfOk result (λ c. c.book ≡ book) }
    {
        if crate::is_bad(&book) {
            return Err(Refusal::Book);
        }
        Ok(CheckedBook { book })
    }
}
