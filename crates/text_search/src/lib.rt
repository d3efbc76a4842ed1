// The least place of a wanted text in a value (document 02, A12). No public function demands anything of its caller.
#![tactic(auto)]

mod search;
mod texts;

pub use search::least_place;
