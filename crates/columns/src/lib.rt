// A number put into the columns of a field: every field of a chart's text and of the program's lines is written by `put_columns`.
// Bytes into a lent buffer, and no `Display`: there is no heap, and a field has its width.
#![tactic(auto)]

ghost use Rattle.std.specs.Prelude.{◌≡◌, [], ◌∷◌, ◌+◌, ◌%◌, ◌≤◌, ◌<◌, length};
ghost use Rattle.text.specs.Field.{last_digit, field_text};
ghost use Rattle.columns.specs.Laid.{laid};
ghost use Rattle.columns.specs.Printed.{printed, line_feed};
ghost use Rattle.columns.specs.Column.{column_byte, sign_left, sign_of};

fn digit(n: u64) -> u8
    ensures { result ≡ 48 + n % 10 }
{
    b'0' + (n % 10) as u8
}

// The column where a number still has the digits n: its last digit, or the sign where there is none.
fn column(sign: u8, n: u64) -> u8
    ensures { result ≡ column_byte sign n }
{
    if n == 0 { sign } else { digit(n) }
}

// The sign that is still to be written before that column: a space once it is.
fn sign_left(sign: u8, n: u64) -> u8
    ensures { result ≡ sign_left sign n }
{
    if n == 0 { b' ' } else { sign }
}

// A number with its sign into all the columns of a field, the last column first. Of a number that does not fit the last digits are put.
#[tactic(auto, using(crate::proofs::Laws::puts))]
fn put_digits(field: &mut [u8], mut sign: u8, mut n: u64)
    requires { 0 < length field.old }
    ensures { field.new ≡ last_digit (length field.old) sign n }
{
    let last = field.len() - 1;
    field[last] = digit(n);
    for k in (0..last).rev() {
        n /= 10;
        field[k] = column(sign, n);
        sign = sign_left(sign, n);
    }
}

// A number with its sign into w columns from `at`. Here and below the answer is where what was put ends.
// A cursor that held the buffer and the place would be no plainer: each function would say as well that it still holds the same buffer.
fn put_columns(out: &mut [u8], at: usize, w: usize, sign: u8, n: u64) -> usize
    requires { (0 < w) × (at + w ≤ length out.old) }
    ensures { (result ≡ at + w) × (out.new ≡ laid out.old at (last_digit w sign n)) }
{
    let end = at + w;
    put_digits(&mut out[at..end], sign, n);
    end
}

// A number that is never below 0.
#[tactic(auto, unfolding(text::specs::Field::field_text))]
pub fn put_number(out: &mut [u8], at: usize, w: usize, n: u64) -> usize
    requires { (0 < w) × (at + w ≤ length out.old) }
    ensures { (result ≡ at + w) × (out.new ≡ laid out.old at (printed w n)) }
{
    put_columns(out, at, w, b' ', n)
}

// The sign before a number's digits.
fn sign(z: i64) -> u8
    ensures { result ≡ sign_of z }
{
    if z < 0 { b'-' } else { b' ' }
}

// Any number.
#[tactic(auto, using(crate::proofs::Laws::text_signed))]
pub fn put_field(out: &mut [u8], at: usize, w: usize, z: i64) -> usize
    requires { (0 < w) × (at + w ≤ length out.old) }
    ensures { (result ≡ at + w) × (out.new ≡ laid out.old at (field_text w z)) }
{
    put_columns(out, at, w, sign(z), z.unsigned_abs())
}

pub fn put_line_end(out: &mut [u8], at: usize) -> usize
    requires { at < length out.old }
    ensures { (result ≡ at + 1) × (out.new ≡ laid out.old at (line_feed ∷ [])) }
{
    out[at] = b'\n';
    at + 1
}
