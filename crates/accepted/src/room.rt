// Room for the tables of the largest chart.
use crate::AcceptedChart;
use chart::Chart;
use ranges::Counts;
use refusal::Refusal;

// A chart stands in the first elements of the tables, which are arrays: a library has no heap.
#[derive(Drop)]
pub struct Room {
    vertices: [i64; chart::VERTEX_NUMBERS],
    edges: [usize; chart::EDGE_NUMBERS],
    faces: [usize; chart::FACES],
}

impl Room {
    ghost use Rattle.std.specs.Prelude.{◌≡◌};
    ghost use Rattle.reading.specs.Reading.{load_of};
    ghost use Rattle.accepted.specs.Loading.{loaded_says, empty_room};

    pub fn new() -> Room
        ensures { result ≡ empty_room }
    {
        Room {
            vertices: [0; chart::VERTEX_NUMBERS],
            edges: [0; chart::EDGE_NUMBERS],
            faces: [0; chart::FACES],
        }
    }

    // The body of a chart whose head has these counts, read and checked; or the refusal 3, 5 or 6 to 11.
    pub fn load<'a>(&'a mut self, text: &[u8], counts: Counts) -> Result<AcceptedChart<'a>, Refusal>
        ensures { loaded_says result ≡ load_of counts.vertices counts.half_edges counts.faces text.now }
    {
        reading::load(
            text,
            counts,
            &mut self.vertices,
            &mut self.edges,
            &mut self.faces,
        )?;
        let a = 4 * counts.vertices;
        let b = 4 * counts.half_edges;
        let chart = Chart {
            vertices: &self.vertices[..a],
            edges: &self.edges[..b],
            faces: &self.faces[..counts.faces],
        };
        Ok(AcceptedChart { chart })
    }
}
