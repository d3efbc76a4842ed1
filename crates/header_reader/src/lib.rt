// Headers of lists and objects, read from any bytes (document 02, A6). No public function demands anything of its caller.
#![tactic(auto)]

mod header;
mod kinds;
mod lists;
mod numbers;
mod objects;
mod values;
mod windows;

pub use header::Header;
pub use kinds::{Kind, kind_of};
pub use lists::list_head;
pub use objects::object_head;
pub use values::value_from;
