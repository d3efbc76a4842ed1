// Packed decimal: bytes read as the scalar that is stored for them, and a number written as bytes.
// No function demands anything of its caller: what is refused is an answer and changes nothing.
#![tactic(auto)]

pub mod read;
pub mod write;
