// The refusals of 01 and 02 by name (docs/FORMATS.md, "Where a call can be turned down").
#![tactic(auto)]

#[derive(Clone, Copy, PartialEq, Eq)]
pub enum Refusal {
    Book = 1,
    Slices = 2,
    Length = 3,
    Counts = 4,
    Field = 5,
    Range = 6,
    Links = 7,
    Places = 8,
    Turn = 9,
    Rim = 10,
    Circle = 11,
    Unknown = 12,
    OffGrid = 13,
    Outside = 14,
    NoCharge = 16,
    Full = 17,
    TextRoom = 18,
    ChartFull = 25,
    NoSite = 26,
}

impl Refusal {
    ghost use Rattle.std.specs.Prelude.{◌≡◌};
    ghost use Rattle.refusal.specs.Number.{number};

    // The number that callers see. A method and no `From` or `Display`: it is asked for by its name, where numbers go out.
    pub fn number(self) -> u64
        ensures { result ≡ number self }
    {
        self as u64
    }
}
