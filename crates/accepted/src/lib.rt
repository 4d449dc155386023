// A chart's text read and checked, and what an accepted chart gives: the definitions are in specs/, the theorems in proofs/.
#![tactic(auto)]

mod checked;
mod room;

pub use checked::AcceptedChart;
pub use room::Room;
