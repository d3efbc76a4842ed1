// The path to a place of a value, written in words (document 02, A12). No public function demands anything of its caller.
#![tactic(auto)]

mod descent;
mod sizes;
mod writing;

pub use writing::write_path;

// One step down: to a list's element by its number, to an object's field by its stored id.
#[derive(Clone, Copy)]
pub enum Step {
    Element(usize),
    Field(usize),
}

// The child that a place is within, and where it starts.
#[derive(Clone, Copy)]
pub struct Child {
    pub step: Step,
    pub start: usize,
}
