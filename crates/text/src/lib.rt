// Chart text: a field of 8 columns, and the whole number that it holds. A field is a part of the text, eight bytes long by a clause:
// as a `[u8; 8]` each would be copied or its length be tested once more.
#![tactic(auto)]

ghost use Rattle.std.specs.Prelude.{◌≡◌, List, ℕ, ◌-◌, ◌≤◌, ◌<◌, length, get_or, eqb, leb};
ghost use Rattle.text.specs.Field.{field_width, spaces_of, digits_of, field_of};
ghost use Rattle.text.specs.Natural.{figures, plain, number_if, below_zero};

// How many columns a field has (`field_width`).
pub const COLUMNS: usize = 8;

// How many spaces a field begins with.
fn spaces(field: &[u8]) -> usize
    ensures { (result ≡ spaces_of field.now) × (result ≤ length field.now) }
{
    field.iter().take_while(|b| **b == b' ').count()
}

// The digits of a field, with the minus sign where there is one: the part of the field after its leading spaces.
#[tactic(auto, using(crate::proofs::Laws::parts), unfolding(crate::specs::Field::digits_of))]
pub fn digits(field: &[u8]) -> &[u8]
    ensures { result.now ≡ digits_of field.now }
{
    &field[spaces(field)..]
}

// What a digit counts. A byte before '0' counts 0, so that no caller has a range to show.
// It is widened first: else the sum in `number` is compiled in bytes, widened again at each digit.
pub fn figure(b: u8) -> u64
    ensures { result ≡ b - 48 }
{
    u64::from(b).saturating_sub(48)
}

// The number that digits make, in one pass; none at the first byte that is no digit.
// Here and in `natural` and `held` the bound is asked of a part of a field: a type of a part would be made at each call, and be no plainer.
// By answers, what the check does not find: a digit more, of a field by `take` and `drop`.
#[tactic(auto, using(crate::proofs::Laws::passes))]
fn number(d: &[u8]) -> Option<i64>
    requires { length d.now ≤ field_width }
    ensures { result ≡ number_if (figures d.now) d.now }
{
    let mut v: u64 = 0;
    for b in d {
        if !b.is_ascii_digit() {
            return None;
        }
        v = v * 10 + figure(*b);
    }
    Some(v as i64)
}

// The number that digits make with no sign before them: at least one, and no 0 before others.
// The 0 is tested first: by the length first, each length is kept as a test of its own, and the loop of the fields runs out of registers.
#[tactic(auto, using(crate::proofs::Laws::plains))]
fn natural(d: &[u8]) -> Option<i64>
    requires { length d.now ≤ field_width }
    ensures { result ≡ number_if (plain d.now) d.now }
{
    if d.is_empty() || d[0] == b'0' && 1 < d.len() {
        return None;
    }
    number(d)
}

// A number after a minus sign: there is no -0.
fn below_zero(number: Option<i64>) -> Option<i64>
    ensures { result ≡ below_zero number }
{
    match number {
        Some(z) if 0 < z => Some(-z),
        _ => None,
    }
}

// Whether digits begin with a minus sign.
pub fn has_minus(d: &[u8]) -> bool
    ensures { result ≡ eqb (get_or d.now 0 0) 45 }
{
    matches!(d, [b'-', ..])
}

// What a field with these digits holds.
// By answers, what the check does not find: a digit more, of a field by `take` and `drop`.
#[tactic(auto, using(crate::proofs::Laws::unsigned))]
fn held(d: &[u8]) -> Option<i64>
    requires { length d.now ≤ field_width }
    ensures { (s : List ℕ) → 0 < length s → digits_of s ≡ d.now → result ≡ field_of s }
{
    if has_minus(d) {
        below_zero(natural(&d[1..]))
    } else {
        natural(d)
    }
}

// Whether a field begins with five spaces. Four are compared as one word: that is one load.
#[tactic(auto, using(crate::proofs::Laws::gaps))]
fn blank(s: &[u8]) -> bool
    requires { length s.now ≡ field_width }
    ensures { result ≡ leb 5 (spaces_of s.now) }
{
    let word = u32::from_le_bytes([s[0], s[1], s[2], s[3]]);
    word == u32::from_le_bytes(*b"    ") && s[4] == b' '
}

// The number of a field that begins with five spaces. Where the digits begin is a constant here, so that what reads them is compiled with no loop.
// A byte after '0' is no space, no sign and no leading zero: one test for the three.
#[tactic(auto, using(crate::proofs::Laws::shorts))]
fn short(s: &[u8]) -> Option<i64>
    requires { (length s.now ≡ field_width) × (5 ≤ spaces_of s.now) }
    ensures { result ≡ field_of s.now }
{
    if b'0' < s[5] {
        return number(&s[5..]);
    }
    if s[5] != b' ' {
        return held(&s[5..]);
    }
    if b'0' < s[6] {
        return number(&s[6..]);
    }
    if s[6] != b' ' {
        return held(&s[6..]);
    }
    number(&s[7..])
}

// The number of a field of 8 columns; none where it is malformed.
#[tactic(auto, using(crate::proofs::Laws::parts))]
pub fn read_field(s: &[u8]) -> Option<i64>
    requires { length s.now ≡ field_width }
    ensures { result ≡ field_of s.now }
{
    if blank(s) { short(s) } else { held(digits(s)) }
}
