// One scalar read (document 02, A6): whether bytes are a scalar within document 01's ranges, and the integer that they are.
// No public function demands anything of its caller.
#![tactic(auto)]

mod integers;
mod ranges;

pub use integers::integer_of;
pub use ranges::is_scalar;
