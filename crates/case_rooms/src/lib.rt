// The lines of a rooms text: the length of an answer slice, with its line end.
#![tactic(auto)]

ghost use Rattle.std.specs.Prelude.{◌≡◌, ◌≤◌, [], length, IsOk};
ghost use Rattle.case_rooms.specs.Refusal.{refusal_in};

use case_text::lines::Lines;
use case_text::rooms::read_room;
use case_text::stop::Stop;
use query::Listed;
use refusal::Refusal;
use std::io;
use std::io::Write;

// A rooms text has fewer bytes.
const BYTES: usize = 4096;

// A load off the grid: it is refused (13) where neither the chart nor the room is.
const OFF: i64 = i64::MAX;

// A chart that is not refused before its room has no more half-edges, so that a longer answer slice is answered alike. The calls
// write into lent room, and of these slices the length is what is asked for.
const LONGEST: usize = 756;

// Answers the rooms, up to the first line that is none.
pub fn rooms<W: Write>(out: &mut W, chart: &[u8], text: &[u8]) -> Result<(), Stop>
    ensures cut { 4096 ≤ length text.now → result ≡ Err Stop.Rooms }
    ensures none { text.now ≡ [] → IsOk result × (W.contents out.new ≡ W.contents out.old) }
{
    if BYTES <= text.len() {
        return Err(Stop::Rooms);
    }
    for line in Lines(text) {
        let length = line.and_then(read_room).ok_or(Stop::Rooms)?;
        answer(out, chart, length)?;
    }
    Ok(())
}

// The line of one room. Each of the three answer slices in turn is the short one.
fn answer<W: Write>(out: &mut W, chart: &[u8], length: u64) -> io::Result<()> {
    let mut list = [0u64; LONGEST];
    let mut shares = [0.0; LONGEST];
    let short = LONGEST.min(length as usize);
    let edges = estivolh::natural_neighbor_edges(chart, OFF, OFF, &mut list[..short]);
    let owners = estivolh::natural_neighbor_weights(
        chart,
        OFF,
        OFF,
        &mut list[..short],
        &mut shares,
    );
    let weights = estivolh::natural_neighbor_weights(
        chart,
        OFF,
        OFF,
        &mut list,
        &mut shares[..short],
    );
    answer_lines::room(
        out,
        length,
        refusal(edges),
        refusal(owners),
        refusal(weights),
    )
}

// The refusal of the chart or of the room; 0 where there is none. A load off the grid is never listed: 13, which no room has, would
// show it. A number, since the line prints one, and three are compared.
fn refusal(found: Result<Listed, Refusal>) -> u64
    ensures { result ≡ refusal_in found }
{
    match found {
        Ok(_) => Refusal::OffGrid.number(),
        Err(Refusal::OffGrid) => 0,
        Err(refusal) => refusal.number(),
    }
}
