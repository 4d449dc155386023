// The lines that `answers` prints: a function for each kind. A method is its number there, also one that is none. What a call wrote stands first in
// lent room, so that its count goes beside the slice.
#![tactic(auto)]

ghost use Rattle.std.specs.Prelude.{OnOk, take};
ghost use Rattle.std.specs.Io.KnownBytes.{Appends};
ghost use Rattle.refusal.specs.Number.{number};
ghost use Rattle.answer_lines.specs.Lines.{numbers_line, answers_line, refused_line};

use book::Book;
use gradient::Gradient;
use locate::Location;
use query::Listed;
use refusal::Refusal;
use std::io::Write;
use std::{fmt, io};
use weights::{BarycentricWeights, Weighted};

// A float as its 64 bits. A not-a-number has no bits of its own.
#[derive(Clone, Copy)]
struct Bits(f64);

impl fmt::Display for Bits {
    ghost use Rattle.std.specs.Prelude.{Some};
    ghost use Rattle.answer_lines.specs.Lines.{bits_text};

    ghost output = { λ b. Some (bits_text b.0) };

    fn fmt<W: fmt::Write>(&self, f: &mut fmt::Formatter<W>) -> fmt::Result {
        if self.0.is_nan() {
            return write!(f, "nan");
        }
        let bits = self.0.to_bits();
        write!(f, "{bits}")
    }
}

pub fn verdict<W: Write>(out: &mut W, found: Result<(), Refusal>) -> io::Result<()> {
    match found {
        Ok(()) => writeln!(out, "verdict 0"),
        Err(refusal) => writeln!(out, "verdict {}", refusal.number()),
    }
}

// An answer of the writer, within a line: how long its text is, and whether the file has the same bytes.
pub fn written<W: Write>(out: &mut W, length: u64, same: bool) -> io::Result<()> {
    let bytes = if same { "same" } else { "other" };
    write!(out, " {length} {bytes}")
}

pub fn unwritten<W: Write>(out: &mut W, refusal: Refusal) -> io::Result<()> {
    write!(out, " refused {}", refusal.number())
}

// Stands after an answer of the writer where bytes are changed that are none of its text.
pub fn changed<W: Write>(out: &mut W) -> io::Result<()> {
    write!(out, " changed")
}

// The refusals by a short list of edges, of vertices and of weights: the oracle has one number, and so has the line where they are alike.
pub fn room<W: Write>(
    out: &mut W,
    length: u64,
    edges: u64,
    owners: u64,
    weights: u64,
) -> io::Result<()> {
    if edges == owners && owners == weights {
        writeln!(out, "room {length} {edges}")
    } else {
        writeln!(out, "room {length} {edges} {owners} {weights}")
    }
}

pub fn gradient<W: Write>(out: &mut W, vertex: u64, slope: Gradient) -> io::Result<()> {
    writeln!(out, "gradient {vertex} {} {}", Bits(slope.x), Bits(slope.y))
}

pub fn refused_gradient<W: Write>(out: &mut W, vertex: u64, refusal: Refusal) -> io::Result<()> {
    writeln!(out, "gradient {vertex} refused {}", refusal.number())
}

pub fn query<W: Write>(out: &mut W, x: i64, y: i64) -> io::Result<()> {
    writeln!(out, "query {x} {y}")
}

pub fn location<W: Write>(out: &mut W, found: Result<Location, Refusal>) -> io::Result<()> {
    match found {
        Ok(Location::OnVertex(v)) => writeln!(out, "location vertex {v}"),
        Ok(Location::OnEdge(h)) => writeln!(out, "location edge {h}"),
        Ok(Location::OnFace(f)) => writeln!(out, "location face {f}"),
        Ok(Location::OutsideOfConvexHull(h)) => writeln!(out, "location outside {h}"),
        Err(refusal) => writeln!(out, "location refused {}", refusal.number()),
    }
}

pub fn barycentric<W: Write>(
    out: &mut W,
    weights: Result<BarycentricWeights, Refusal>,
) -> io::Result<()> {
    match weights {
        Ok(BarycentricWeights::OneVertex(u)) => weighted(out, &[u]),
        Ok(BarycentricWeights::TwoWeights(u, v)) => weighted(out, &[u, v]),
        Ok(BarycentricWeights::ThreeWeights(u, v, w)) => weighted(out, &[u, v, w]),
        Err(refusal) => writeln!(out, "barycentric refused {}", refusal.number()),
    }
}

// How many vertices there are, and each with its weight.
fn weighted<W: Write>(out: &mut W, vertices: &[Weighted]) -> io::Result<()> {
    write!(out, "barycentric {}", vertices.len())?;
    for v in vertices {
        write!(out, " {} {}", v.vertex, Bits(v.weight))?;
    }
    writeln!(out)
}

pub fn edges<W: Write>(
    out: &mut W,
    found: Result<Listed, Refusal>,
    list: &[u64],
) -> io::Result<()> {
    match found {
        Ok(listed) => {
            write!(out, "edges {} {}", listed.opened, listed.count)?;
            numbers(out, list, listed.count as usize)
        }
        Err(refusal) => writeln!(out, "edges refused {}", refusal.number()),
    }
}

pub fn natural_weights<W: Write>(
    out: &mut W,
    found: Result<Listed, Refusal>,
    owners: &[u64],
    shares: &[f64],
) -> io::Result<()> {
    match found {
        Ok(listed) => {
            write!(out, "natural {} {}", listed.opened, listed.count)?;
            let count = listed.count as usize;
            for (owner, share) in owners.iter().zip(shares.iter()).take(count) {
                write!(out, " {owner} {}", Bits(*share))?;
            }
            writeln!(out)
        }
        Err(refusal) => writeln!(out, "natural refused {}", refusal.number()),
    }
}

pub fn value<W: Write>(
    out: &mut W,
    method: i64,
    value: f64,
    charge: Result<u64, Refusal>,
) -> io::Result<()> {
    write!(out, "value {method} {} charge ", Bits(value))?;
    match charge {
        Ok(n) => writeln!(out, "{n}"),
        Err(refusal) => writeln!(out, "refused {}", refusal.number()),
    }
}

pub fn refused_value<W: Write>(out: &mut W, method: i64, refusal: Refusal) -> io::Result<()> {
    writeln!(out, "value {method} refused {}", refusal.number())
}

// The answers to a batch of so many entries.
pub fn answers<W: Write>(out: &mut W, answers: &[u64], entries: usize) -> io::Result<()>
    ensures { OnOk result (Appends (W.contents out.old) (W.contents out.new) (answers_line (take entries answers.now))) }
{
    write!(out, "answers")?;
    numbers(out, answers, entries)
}

pub fn refused_batch<W: Write>(out: &mut W, refusal: Refusal) -> io::Result<()>
    ensures { OnOk result (Appends (W.contents out.old) (W.contents out.new) (refused_line (number refusal))) }
{
    writeln!(out, "refused {}", refusal.number())
}

// The book, with a line for each section's wear and bends.
pub fn book<W: Write>(out: &mut W, book: Book) -> io::Result<()> {
    writeln!(out, "book {} {}", book.sections, book.retired)?;
    for (wear, bends) in book.wear.iter().zip(book.bends.iter()) {
        writeln!(out, "{wear} {bends}")?;
    }
    Ok(())
}

// The first `count` numbers of a list, or all of them where it has fewer, and the line's end.
fn numbers<W: Write>(out: &mut W, list: &[u64], count: usize) -> io::Result<()>
    ensures { OnOk result (Appends (W.contents out.old) (W.contents out.new) (numbers_line (take count list.now))) }
{
    for n in &list[..count.min(list.len())] {
        write!(out, " {n}")?;
    }
    writeln!(out)
}
