// An entry of the log, its row 12, and what becomes of it (01, "Charge, entry, book").
#![tactic(auto)]

ghost use Rattle.std.specs.Prelude.{◌≡◌, ◌≤◌, ◌<◌, ◌+◌, ◌^◌, length};
ghost use Rattle.entries.specs.Entry.{entry_width, entry_at, untidy, known_says, known_of};
ghost use Rattle.entries.specs.Ruling.{answer_of, ruling_says, meets17};

use book::LIMIT;
use geometry::Place;
use refusal::Refusal;
use values::Method;

// How many numbers an entry has (`entry_width`), and what a refused entry's answer is above (`refused_entry`).
pub const ENTRY_WIDTH: usize = 5;

const REFUSED_ENTRY: u64 = 2_000_000;

// Of these kinds an entry is: numbers in C and in a log's line, and `KnownEntry` past 12.
const BEND: i64 = 1;

const SPLICE: i64 = 2;

#[derive(Clone, Copy)]
pub struct Entry {
    pub kind: i64,
    pub section: i64,
    pub x: i64,
    pub y: i64,
    pub method: i64,
}

// An entry that 12 lets pass: a bend of a section, its value by a method where its load lies, or a splice of a section.
#[derive(Clone, Copy)]
pub enum KnownEntry {
    Bend(usize, Method, Place),
    Splice(usize),
}

// What an accepted entry does to the book: a bend of a section with its charge, or a splice of a section. Beside `KnownEntry` and no one enum with a
// parameter: what a bend carries is named here and there.
#[derive(Clone, Copy)]
pub enum Change {
    Bend(usize, u64),
    Splice(usize),
}

impl Entry {
    // The entry whose first number stands at a place.
    pub fn at(entries: &[i64], at: usize) -> Entry
        requires { at + entry_width ≤ length entries.now }
        ensures { result ≡ entry_at entries.now at }
    {
        Entry {
            kind: entries[at],
            section: entries[at + 1],
            x: entries[at + 2],
            y: entries[at + 3],
            method: entries[at + 4],
        }
    }

    // A splice whose x, y or method isn't 0.
    fn is_untidy(self) -> bool
        ensures { result ≡ untidy self.x self.y self.method }
    {
        self.x != 0 || self.y != 0 || self.method != 0
    }

    // The entry by its kind, or 12: kind, section or (save a splice's) method unknown, or an untidy splice.
    pub fn known(self, sections: u64) -> Result<KnownEntry, Refusal>
        ensures { known_says result ≡ known_of sections self }
    {
        if ranges::is_not_below(sections as usize, self.section) {
            return Err(Refusal::Unknown);
        }
        let section = chart::to_unsigned(self.section);
        match self.kind {
            BEND => {
                let method = Method::new(self.method).ok_or(Refusal::Unknown)?;
                let place = Place {
                    x: self.x,
                    y: self.y,
                };
                Ok(KnownEntry::Bend(section, method, place))
            }
            SPLICE if !self.is_untidy() => Ok(KnownEntry::Splice(section)),
            _ => Err(Refusal::Unknown),
        }
    }
}

// 17, of a bend of charge n: by the total of all wear, and by the section's bend count.
pub fn is_full(total: u64, count: u64, n: u64) -> bool
    requires { total + n < 2 ^ 64 }
    ensures { result ≡ meets17 total count n }
{
    total + n > LIMIT || count == LIMIT
}

// What the batch answers: a number, as C gets it.
pub fn answer_of(ruling: Result<Change, Refusal>) -> u64
    ensures { result ≡ answer_of (ruling_says ruling) }
{
    match ruling {
        Ok(Change::Bend(_, n)) => n,
        Ok(Change::Splice(_)) => 0,
        Err(refusal) => REFUSED_ENTRY + refusal.number(),
    }
}
