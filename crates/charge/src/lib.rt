// What a value costs (01, "Charge, entry, book").
#![tactic(auto)]

ghost use Rattle.std.specs.Prelude.{◌≡◌};
ghost use Rattle.charge.specs.Charging.{charge_says, charge_of};

use refusal::Refusal;

// The charge. `value + 0.5` would round: below 0.5 there is a value that it takes to 1. `whole + 0.5` does not, as whole is at most 1,000,000.
#[tactic(auto, using(crate::proofs::Tests::ways))]
pub fn charge(value: f64) -> Result<u64, Refusal>
    ensures { charge_says result ≡ charge_of value }
{
    if value >= -0.5 && value < 1000000.5 {
        let whole = std::num::truncating_f64_to_u64(value);
        let half = (whole as f64) + 0.5;
        if value < half {
            Ok(whole)
        } else {
            Ok(whole + 1)
        }
    } else {
        Err(Refusal::NoCharge)
    }
}
