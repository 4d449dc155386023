// Laws of the whole numbers, in specs/, and the one test on them that the crates above share.
#![tactic(auto)]

ghost use Rattle.std.specs.Prelude.{◌≡◌};
ghost use Rattle.whole.specs.Bound.{outside};

// Whether z is below low or above high.
pub fn is_outside(low: i64, high: i64, z: i64) -> bool
    ensures { result ≡ outside low high z }
{
    !(low..=high).contains(&z)
}
