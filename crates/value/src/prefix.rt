// What stands before bytes. Its functions are beside those of a scalar (scalar.rt).
ghost use Rattle.std.specs.Prelude.{◌≤◌};

// How bytes are stored: the first byte, and how many bytes their length takes before them.
#[derive(Clone, Copy)]
pub(crate) struct Prefix {
    pub(crate) length_size: usize,
    pub(crate) first: u8,
    ghost short: { length_size ≤ 4 },
}
