// A line of a rooms text: the length of an answer slice.
ghost use Rattle.std.specs.Prelude.{◌≡◌};
ghost use Rattle.case_text.specs.Room.{room_of};

use crate::decimal::decimal;

// What a line without its end says.
#[tactic(auto, unfolding(crate::specs::Room::room_of))]
pub fn read_room(line: &[u8]) -> Option<u64>
    ensures { result ≡ room_of line.now }
{
    u64::try_from(decimal(line)?).ok()
}
