// A text found in a pair, and its path in words (document 02, A12). No public function demands anything of its caller.
#![tactic(auto)]

mod find;

pub use find::{FindError, find_text};
