// The lines of a text, and the parts of a line.
ghost use Rattle.std.specs.Prelude.{◌≡◌, ◌==◌, ◌<◌, length, option_map, position, IfSome};
ghost use Rattle.std.specs.Iterator.{at_most};
ghost use Rattle.case_text.specs.Query.{split_of};
ghost use Rattle.case_text.specs.Line.{line_says, line_of, after_line};

fn find(s: &[u8], b: u8) -> Option<usize>
    ensures { result ≡ position (λ x. x == b) s.now }
{
    s.iter().position(|&x| x == b)
}

// The bytes before the first `b` and those after it.
pub fn split_once(s: &[u8], b: u8) -> Option<(&[u8], &[u8])>
    ensures parts { option_map (λ p. (p.0.now, p.1.now)) result ≡ split_of b s.now }
    ensures shorter { IfSome result (λ p. length p.1.now < length s.now) }
{
    let n = find(s, b)?;
    Some((&s[..n], &s[n + 1..]))
}

// Each line of a text without its end; `None` for a last one that has no end.
#[derive(Drop)]
pub struct Lines<'a>(pub &'a [u8]);

impl<'a> Iterator for Lines<'a> {
    type Item = Option<&'a [u8]>;

    ghost remaining = { λ s. at_most (length s.0.now) };

    ghost next_gives = { λ s r t. (line_says r ≡ line_of s.0.now) × (t.0.now ≡ after_line s.0.now) };

    fn next(&mut self) -> Option<Option<&'a [u8]>> {
        if self.0.is_empty() {
            return None;
        }
        let Some((line, rest)) = split_once(self.0, b'\n') else {
            self.0 = &[];
            return Some(None);
        };
        self.0 = rest;
        Some(Some(line))
    }
}
