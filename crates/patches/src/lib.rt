// Triangles that are written into a chart: a flip, a vertex put into a face and a vertex put into an edge, each as a list of them.
#![tactic(auto)]

ghost use Rattle.std.specs.Prelude.{◌≡◌};
ghost use Rattle.patches.specs.Rows.{turn};

// A half-edge of a triangle: its number, the other two, the face, and the vertices where it starts, where it ends, and across.
#[derive(Clone, Copy)]
pub struct Row {
    pub key: usize,
    pub next: usize,
    pub prev: usize,
    pub face: usize,
    pub from: usize,
    pub to: usize,
    pub apex: usize,
}

impl Row {
    // The same triangle, seen from the next half-edge.
    pub fn turn(self) -> Row
        ensures { result ≡ turn self }
    {
        Row {
            key: self.next,
            next: self.prev,
            prev: self.key,
            face: self.face,
            from: self.to,
            to: self.apex,
            apex: self.from,
        }
    }
}
