// How many vertices, half-edges and faces a chart has.
ghost use Rattle.ranges.specs.Passed.{Counted};

use refusal::Refusal;

// The counts of a chart, which 4 has let pass.
#[derive(Clone, Copy)]
pub struct Counts {
    pub vertices: usize,
    pub half_edges: usize,
    pub faces: usize,
    pub ghost counted: { Counted vertices half_edges faces },
}

impl Counts {
    ghost use Rattle.std.specs.Prelude.{cond, ◌≡◌, pos, IfOk};
    ghost use Rattle.refusal.specs.Number.{refusal_of};
    ghost use Rattle.ranges.specs.Ranges.{counts_refused};

    // 4: vertices not 3 to 128; half-edges odd or not 6 to 756; faces not 2 to 252.
    #[tactic(auto, using(crate::specs::Passed::counted))]
    pub fn new(vertices: usize, half_edges: usize, faces: usize) -> Result<Counts, Refusal>
        ensures refused { refusal_of result ≡ cond (counts_refused (pos vertices) (pos half_edges) (pos faces)) 4 0 }
        ensures same { IfOk result (λ c. (c.vertices ≡ vertices) × ((c.half_edges ≡ half_edges) × (c.faces ≡ faces))) }
    {
        if crate::passes(vertices, half_edges, faces) {
            return Ok(Counts {
                vertices,
                half_edges,
                faces,
            });
        }
        Err(Refusal::Counts)
    }
}
