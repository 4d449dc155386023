// A set of faces as bits of four 64-bit words, counted by their ones (01, "Rust idioms"): face f is bit f % 64 of word f / 64.
#![tactic(auto)]

ghost use Rattle.std.specs.Prelude.{◌≡◌, ◌<◌};
ghost use Rattle.faceset.specs.Set.{has, add, none, count_below};

// Bits in words and no set of the library: there is no heap, and `insert` and `contains` are one step each.
#[derive(Clone, Copy)]
pub struct FaceSet {
    pub words: [u64; 4],
}

impl FaceSet {
    // The set with no face.
    #[tactic(auto, using(crate::proofs::Words::zeros_hold_none))]
    pub fn empty() -> Self
        ensures { has result.words ≡ none }
    {
        FaceSet { words: [0u64; 4] } // no heap
    }

    // Whether face f is in the set.
    #[tactic(auto, unfolding(crate::specs::Set::has, crate::specs::Set::bit))]
    pub fn contains(self, f: usize) -> bool
        requires { f < 256 }
        ensures { result ≡ has self.words f }
    {
        let w = self.words[f / 64];
        (w >> (f % 64)) % 2 == 1
    }

    // The set with face f in it.
    #[tactic(auto, using(crate::proofs::Words::has_or))]
    pub fn insert(mut self, f: usize) -> Self
        requires { f < 256 }
        ensures { has result.words ≡ add f (has self.words) }
    {
        self.words[f / 64] |= 1 << (f % 64);
        self
    }

    // How many faces are in the set.
    pub fn count(self) -> usize
        ensures { result ≡ count_below 256 (has self.words) }
    {
        self.words.iter().map(|w| w.count_ones() as usize).sum()
    }
}
