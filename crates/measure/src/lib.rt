// Values measured by their first bytes and stored lengths (document 02, A8): how long the value is that bytes begin with, and whether
// bytes are so many values, end to end; and a stored number. No public function demands anything of its caller.
#![tactic(auto)]

mod length;
mod walk;

pub use length::{read_packed, value_length};
pub use walk::whole_values;
