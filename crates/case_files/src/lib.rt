// The texts of a case, read: the files of a folder, or parts of standard input.
#![tactic(auto)]

pub mod folder;
pub mod packed;
mod read;
mod texts;

pub use texts::{Text, Texts};
