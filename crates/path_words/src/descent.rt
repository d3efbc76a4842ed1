// One step down: the child that a place is within.
ghost use Rattle.std.specs.Prelude.{◌≡◌, ◌-◌, ◌≤◌, length};
ghost use Rattle.grammar.specs.Tests.{list_from, object_offsets, stored_ids};
ghost use Rattle.header_reader.specs.Heads.{value_from};
ghost use Rattle.path_words.specs.Descent.{child_over, element_over, field_over};

use crate::{Child, Step};
use header_reader::{Header, Kind, kind_of, value_from};

// A place within a value.
#[derive(Clone, Copy)]
pub(crate) struct Spot<'a> {
    pub(crate) value: &'a [u8],
    pub(crate) place: usize,
}

impl<'a> Spot<'a> {
    // The child that it is within.
    pub(crate) fn child(self) -> Option<Child>
        ensures { result ≡ child_over self.entry.value.now self.entry.place }
    {
        match kind_of(self.value) {
            Kind::List => self.element(),
            Kind::Object => self.field(),
            Kind::Scalar => None,
        }
    }

    // The same place within the child that starts at `start`.
    pub(crate) fn inside(self, start: usize) -> Spot<'a>
        requires { start ≤ self.place }
        ensures value { result.value.now ≡ value_from start self.entry.value.now }
        ensures place { result.place ≡ self.entry.place - start }
    {
        Spot {
            value: value_from(self.value, start),
            place: self.place - start,
        }
    }

    // Kept (3; no plainer): each step is as long as the element, whose start is wanted as well as its number; an iterator over whole values
    // was not made, as it would give neither.
    fn element(self) -> Option<Child>
        ensures { let v = self.entry.value.now in result ≡ element_over (length v) v self.entry.place 0 (list_from v) }
    {
        let mut number = 0;
        let mut start = Header::of_list(self.value).from();
        while start <= self.place {
            let n = value_from(self.value, start).len();
            if n == 0 {
                break;
            }
            if self.place < start + n {
                return Some(Child {
                    step: Step::Element(number),
                    start,
                });
            }
            number += 1;
            start += n;
        }
        None
    }

    // Kept (3; no plainer): a `find_map` would hold the same lines as a closure, and the definition goes from field to field as the loop does.
    fn field(self) -> Option<Child>
        ensures { let v = self.entry.value.now in result ≡ field_over v self.entry.place (stored_ids v) (object_offsets v) }
    {
        let header = Header::of_object(self.value);
        let from = header.from();
        for k in 0..header.count() {
            let start = from + header.offset(k);
            if start <= self.place && self.place < start + value_from(self.value, start).len() {
                return Some(Child {
                    step: Step::Field(header.id(k)),
                    start,
                });
            }
        }
        None
    }
}
