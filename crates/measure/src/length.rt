// A value's length by its first bytes.
ghost use Rattle.std.specs.Prelude.{◌≡◌, ◌+◌, ◌*◌, ◌%◌, ◌≤◌, ◌<◌, ◌^◌, eqb, min, ◌∷◌, [], length, get_or, take};
ghost use Rattle.encoding.specs.Packed.{number};
ghost use Rattle.container.specs.Layout.{count_size};
ghost use Rattle.measure.specs.Measure.{Numbered, Read, Told, container_length, known_length, measured, number_at, some_length};
ghost use Rattle.measure.specs.Measure.{list_length as list_length_of, object_length as object_length_of};

// The length of the whole value that these bytes begin with.
#[inline]
pub fn value_length(v: &[u8]) -> Option<usize>
    ensures { result ≡ some_length (measured v.now) }
{
    let [first, ..] = v else {
        return None;
    };
    let b = usize::from(*first);
    let n = match b & 3 {
        0 => typed_length(v, b >> 2)?,
        1 => 1 + (b >> 2),
        2 => object_length(v, b)?,
        _ => list_length(v, b)?,
    };
    (n <= v.len()).then_some(n)
}

// A payload's size by type code; Binary's and String's (15 and 16) is that of the length they store.
static PAYLOAD_SIZES: [u8; 21] = [
    0, 0, 0, 1, 2, 4, 8, 8, 5, 9, 17, 4, 8, 8, 4, 4, 4, 8, 8, 8, 16,
];

// By type code; a code above 20 is no value.
fn typed_length(v: &[u8], code: usize) -> Option<usize>
    requires { (0 < length v.now) × (get_or v.now 0 0 ≡ 4 * code) }
    ensures { Told v.now (known_length (4 * code) v.now) result }
{
    if code < PAYLOAD_SIZES.len() {
        let n = 1 + usize::from(PAYLOAD_SIZES[code]);
        if code == 15 || code == 16 {
            Some(n + number_at(v, 1, 4)?)
        } else {
            Some(n)
        }
    } else {
        None
    }
}

#[inline(never)]
fn list_length(v: &[u8], b: usize) -> Option<usize>
    ensures { Told v.now (list_length_of b v.now) result }
{
    container_length(v, (b >> 2 & 3) + 1, 0, count_size(b >> 4))
}

#[inline(never)]
fn object_length(v: &[u8], b: usize) -> Option<usize>
    ensures { Told v.now (object_length_of b v.now) result }
{
    container_length(v, (b >> 2 & 3) + 1, (b >> 4 & 3) + 1, count_size(b >> 6))
}

// With w bytes an offset, `ids` an id, and c the count. However the count was altered, the sum is below 2 ^ 37.
fn container_length(v: &[u8], w: usize, ids: usize, c: usize) -> Option<usize>
    requires { (1 ≤ w) × (w ≤ 4) × (ids ≤ 4) × (c ≤ 4) }
    ensures { Told v.now (container_length w ids c v.now) result }
{
    let last = 1 + c + (ids + w) * number_at(v, 1, c)?;
    Some(last + w + number_at(v, last, w)?)
}

// The bytes of a count, by the large bit, here the lowest.
// Kept (2; no plainer): `count_size` of container asks a count, this one a bit; each is one line.
fn count_size(bits: usize) -> usize
    ensures size { result ≡ count_size (eqb (bits % 2) 1) }
    ensures high { result ≤ 4 }
{
    if bits & 1 == 1 { 4 } else { 1 }
}

// The number in `size` bytes at place `at`, lowest first: in four where more are asked for, in fewer where fewer are there,
// so that no number is missing.
// Kept (1d, 6; no plainer): every place is answered, also one past the bytes, from which there is no slice: of no bytes the number is 0.
pub fn read_packed(v: &[u8], at: usize, size: usize) -> usize
    ensures { Numbered v.now at (min size 4) result }
{
    let rest = &v[at.min(v.len())..];
    number_of(&rest[..size.min(rest.len())])
}

// The number in w bytes at place p, where they are there.
// Kept (6; no plainer): here the slice of them is made; each caller would make it by the same two `get`.
fn number_at(v: &[u8], p: usize, w: usize) -> Option<usize>
    requires { w ≤ 4 }
    ensures { Read v.now p w result }
{
    Some(number_of(v.get(p..)?.get(..w)?))
}

// The number that up to four bytes stand for, lowest first.
fn number_of(bytes: &[u8]) -> usize
    ensures { (result ≡ number (take 4 bytes.now)) × (result < 2 ^ 32) }
{
    match bytes {
        [] => 0,
        [a] => usize::from(*a),
        [a, b] => usize::from(u16::from_le_bytes([*a, *b])),
        [a, b, c] => u32::from_le_bytes([*a, *b, *c, 0]) as usize,
        [a, b, c, d, ..] => u32::from_le_bytes([*a, *b, *c, *d]) as usize,
    }
}
