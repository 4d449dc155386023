// The five texts of a case.
use arrayvec::ArrayVec;

// The first bytes of a text, `LIMIT` at most. Of a fixed size: there is no heap, so that no text is too much for it.
pub type Text = ArrayVec<u8, 65536>;

#[derive(Default, Drop)]
pub struct Texts {
    pub chart: Text,
    pub queries: Text,
    pub rooms: Text,
    pub batches: Text,
    pub log: Text,
}
