// The header line of a packed case: five fields of 8 columns and the line end.
ghost use Rattle.std.specs.Prelude.{◌≡◌};
ghost use Rattle.case_text.specs.Header.{size_of, header_of};

// How many bytes the line has.
pub const HEADER: usize = 41;

// What a header says: the sizes of a case's texts.
#[derive(Clone, Copy)]
pub struct Sizes {
    pub chart: usize,
    pub queries: usize,
    pub rooms: usize,
    pub batches: usize,
    pub log: usize,
}

#[tactic(auto, unfolding(crate::specs::Header::header_of))]
pub fn read_header(line: &[u8]) -> Option<Sizes>
    ensures { result ≡ header_of line.now }
{
    if line.len() != HEADER {
        return None;
    }
    // `tables::line` reads into lent room
    let mut row = [0i64; 5];
    tables::line(line, 0, &mut row)?;
    Some(Sizes {
        chart: size(row[0])?,
        queries: size(row[1])?,
        rooms: size(row[2])?,
        batches: size(row[3])?,
        log: size(row[4])?,
    })
}

fn size(z: i64) -> Option<usize>
    ensures { result ≡ size_of z }
{
    usize::try_from(z).ok()
}
