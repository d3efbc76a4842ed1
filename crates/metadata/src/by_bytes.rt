// Names by their bytes, and the part of a text that lies between two places.
ghost use Rattle.std.specs.Prelude.{◌≡◌, ◌-◌, drop, take};
ghost use Rattle.metadata.specs.Names.{below as below_of, same as same_of};

// Are the two names one? The last bytes are compared first: names that begin alike, as those of a numbered row, mostly differ there.
// Kept (4; speed): `==` alone was tried; a record of eight fields whose names differ in the last byte took a fifth more instructions.
pub fn same(a: &[u8], b: &[u8]) -> bool
    ensures { result ≡ same_of a.now b.now }
{
    a.last() == b.last() && a == b
}

// Is a below b, by bytes?
// Kept (3, 4; speed): `a < b` was tried; the mark of a dictionary whose names rise and begin alike took up to two and a half times as long.
pub fn below(a: &[u8], b: &[u8]) -> bool
    ensures { result ≡ below_of a.now b.now }
{
    for i in 0..a.len().min(b.len()) {
        let x = a[i];
        let y = b[i];
        if x != y {
            return x < y;
        }
    }
    a.len() < b.len()
}

// What lies between two places, as far as there is text.
// Kept (1d, 6; no plainer): it makes the slice of the two places; where they fall or lie beyond the text it is empty by definition (`take`, `drop`).
pub fn part(text: &[u8], start: usize, end: usize) -> &[u8]
    ensures { result.now ≡ take (end - start) (drop start text.now) }
{
    text.get(start..end.min(text.len())).unwrap_or(&[])
}
