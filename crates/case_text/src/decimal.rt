// A whole number in decimal.
ghost use Rattle.std.specs.Prelude.{◌≡◌};
ghost use Rattle.case_text.specs.Decimal.{decimal_of, magnitude_of, natural_of};

// As many digits as any i64 has.
const DIGITS: usize = 19;

// An optional minus sign and 1 to 19 digits, of a number that an i64 holds.
#[tactic(auto, unfolding(crate::specs::Decimal::decimal_of))]
pub fn decimal(text: &[u8]) -> Option<i64>
    ensures { result ≡ decimal_of text.now }
{
    match text.strip_prefix(b"-") {
        Some(digits) => 0i64.checked_sub_unsigned(magnitude(digits)?),
        None => i64::try_from(magnitude(text)?).ok(),
    }
}

fn magnitude(digits: &[u8]) -> Option<u64>
    ensures { result ≡ magnitude_of digits.now }
{
    if DIGITS < digits.len() {
        return None;
    }
    unsigned(digits)
}

// One digit or more, of a number that a u64 holds.
#[tactic(auto, using(crate::proofs::Laws::naturals))]
pub fn unsigned(digits: &[u8]) -> Option<u64>
    ensures { result ≡ natural_of digits.now }
{
    // `parse` takes a plus sign too
    if digits.starts_with(b"+") {
        return None;
    }
    match str::from_utf8(digits) {
        Ok(text) => text.parse().ok(),
        Err(_) => None,
    }
}
