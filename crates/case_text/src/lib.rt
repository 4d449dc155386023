// The texts of a test case (oracle/README.md): what their lines say.
#![tactic(auto)]

pub mod decimal;
pub mod headers;
pub mod lines;
pub mod queries;
pub mod rooms;
pub mod stop;

// So many bytes of a text are read at most: one of so many was cut, or may have been. A chart that was cut is longer than any chart, and so is
// its first part.
pub const LIMIT: usize = 65536;
