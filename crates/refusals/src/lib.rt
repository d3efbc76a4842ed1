// The rows of document 01's table of refused calls, decided over what a call sees of the record and over the lent slices.
// Nothing is written here; the calls are in the crates `builder` and `ffi`.
#![tactic(auto)]

ghost use Rattle.std.specs.Prelude.{◌≡◌};
ghost use Rattle.refusals.specs.Decide.{field_id, field_place, into_of, opens_of};

mod flags;
mod lookup;
mod numbers;
mod view;

pub use lookup::name_if;
pub use numbers::may_make;
use semantics::View;
pub use view::unique_now;

// What a call decides on: what it sees of the record, and the lent slices.
#[derive(Clone, Copy)]
pub struct Seen<'a> {
    pub view: &'a View,
    pub value: &'a [u8],
    pub text: &'a [u8],
    pub ends: &'a [usize],
    pub entries: &'a [usize],
    pub undo: &'a [usize],
}

// The calls that may give a name and enter a value.
#[derive(Clone, Copy)]
pub enum Entering {
    Register,
    Append,
    Open,
}

impl Entering {
    // Does it enter a value into the innermost container? A register does not, whatever is open.
    pub fn enters(self) -> bool
        ensures { result ≡ into_of self }
    {
        !matches!(self, Entering::Register)
    }

    // Does it open a container?
    pub fn opens(self) -> bool
        ensures { result ≡ opens_of self }
    {
        matches!(self, Entering::Open)
    }
}

// What a field name means to a call: none is given; it is new to the dictionary, and gets this id; or it is held, and where it is live in the
// innermost container its entry has that place.
#[derive(Clone, Copy)]
pub enum Field {
    Unnamed,
    Fresh(usize),
    Held { id: usize, place: Option<usize> },
}

impl Field {
    // Its id; without a name 0, which enters nothing.
    // Kept (1d; no plainer): an entry is put only where a name is given, so the 0 is never read; an `Option` would be asked for nothing.
    pub fn id(self) -> usize
        ensures { result ≡ field_id self }
    {
        match self {
            Field::Unnamed => 0,
            Field::Fresh(id) => id,
            Field::Held { id, place: _ } => id,
        }
    }

    // The place of its entry, where it is live.
    pub fn place(self) -> Option<usize>
        ensures { result ≡ field_place self }
    {
        match self {
            Field::Unnamed | Field::Fresh(_) => None,
            Field::Held { id: _, place } => place,
        }
    }
}
