// A dictionary read (document 02, A6): whether bytes are one, and the names in them by their ids. Nothing is copied, and no function
// demands anything of its caller.
#![tactic(auto)]

mod names;
mod reading;
mod stored;

pub use names::{name_at, name_below, name_count, same_name};
pub use reading::read_dictionary;

// The bytes are no dictionary.
#[derive(Clone, Copy, PartialEq, Eq, Debug)]
pub struct BadDictionary;
