// The lines of a queries text: "x y".
ghost use Rattle.std.specs.Prelude.{◌≡◌};
ghost use Rattle.case_text.specs.Query.{query_of};

use crate::decimal::decimal;
use crate::lines::split_once;

// What a line without its end says.
#[tactic(auto, unfolding(crate::specs::Query::query_of))]
pub fn read_query(line: &[u8]) -> Option<(i64, i64)>
    ensures { result ≡ query_of line.now }
{
    let (x, y) = split_once(line, b' ')?;
    Some((decimal(x)?, decimal(y)?))
}
