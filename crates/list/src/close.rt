// Closing a list: `ListBuilder::finish` of the Rust, with the offsets had by walking the data.
// Derived from parquet-variant 60.1.0, src/builder/list.rs: see lib.rt and NOTICE. Changed: written in Rattle.
ghost use Rattle.std.specs.Prelude.{◌≡◌, ◌++◌, ◌+◌, ◌-◌, ◌*◌, ◌^◌, ◌≤◌, ◌<◌, drop, length};
ghost use Rattle.encoding.specs.Width.{width_at};
ghost use Rattle.container.specs.Layout.{large, list_byte, list_header_at};
ghost use Rattle.container.specs.Layout.{count_size as count_size_of};
ghost use Rattle.measure.specs.Measure.{starts_in};
ghost use Rattle.list.specs.Close.{ClosesList, damaged};

use crate::starts::write_starts;
use container::{CloseError, count_size};
use encoding::packed::put_packed;
use encoding::slices::{counted, fits, shift_within};
use encoding::width::int_size_at;
use measure::whole_values;

// A list's data, from `start` to `used`, how many values it is to be, and the floor under the width of its header's numbers.
#[derive(Clone, Copy)]
pub struct ListFrame {
    pub start: usize,
    pub used: usize,
    pub count: usize,
    pub floor: usize,
}

// The header put before the data. All is decided before a byte is moved: nothing is written where the data is not as many whole
// values as are counted, or the header does not fit after the used bytes.
pub fn close_list(f: ListFrame, value: &mut [u8]) -> Result<usize, CloseError>
    ensures { ClosesList f.start f.used f.count f.floor value.old result value.new }
{
    if f.is_damaged(value) {
        return Err(CloseError::Damaged);
    }
    let front = f.header();
    let header = front.len();
    if fits(f.used, header, value.len()) {
        shift_within(value, f.start, f.used, header);
        front.write(&mut value[f.start..f.used + header]);
        Ok(f.used + header)
    } else {
        Err(CloseError::NoRoom)
    }
}

impl ListFrame {
    // Do marks fall, do counts exceed what is lent, or is the data not `count` whole values?
    fn is_damaged(self, value: &[u8]) -> bool
        ensures { result ≡ damaged self.start self.used self.count value.now }
    {
        !(self.start <= self.used)
            || !(self.used <= counted(value.len()))
            || !whole_values(value, self.start, self.used, self.count)
    }

    // The header of this data.
    fn header(self) -> ListHeader
        requires { self.start ≤ self.used }
        ensures count { result.count ≡ self.count }
        ensures size { result.size ≡ self.used - self.start }
        ensures width { result.width ≡ width_at self.floor (self.used - self.start) }
    {
        let size = self.used - self.start;
        ListHeader {
            count: self.count,
            size,
            width: int_size_at(self.floor, size),
        }
    }
}

// A list's header but for its offsets: how many they are, the bytes of data, and those of an offset. An object's has ids and their width
// besides, and its entries elsewhere: one struct for both would ask which it is in each method.
#[derive(Clone, Copy)]
struct ListHeader {
    count: usize,
    size: usize,
    width: usize,
    ghost offset_width: { (1 ≤ width) × (width ≤ 4) },
}

impl ListHeader {
    // How many bytes it takes.
    fn len(self) -> usize
        requires { self.count < 2 ^ 60 }
        ensures { result ≡ 1 + count_size_of (large self.count) + self.width * (self.count + 1) }
    {
        1 + count_size(self.count) + self.width * (self.count + 1)
    }

    // `array_header` of the Rust.
    fn first_byte(self) -> u8
        ensures { result ≡ list_byte self.width (large self.count) }
    {
        let base = 3 + (self.width - 1) as u8 * 4;
        if 255 < self.count { base + 16 } else { base }
    }

    // Written into the room for it, behind which the data stands.
    fn write(self, bytes: &mut [u8])
        requires few { self.count < 2 ^ 60 }
        requires room { 1 + count_size_of (large self.count) + self.width * (self.count + 1) ≤ length bytes.old }
        ensures { let values = drop (1 + count_size_of (large self.count) + self.width * (self.count + 1)) bytes.old in
            bytes.new ≡ list_header_at self.width (large self.count) (starts_in self.count 0 values) self.size ++ values }
    {
        let n = self.count;
        let count = count_size(n);
        let offsets = 1 + count;
        let last = offsets + self.width * n;
        let (front, values) = bytes.split_at_mut(last + self.width);
        front[0] = self.first_byte();
        put_packed(front, 1, n, count);
        write_starts(&mut front[offsets..last], values, n, self.width);
        put_packed(front, last, self.size, self.width);
    }
}
