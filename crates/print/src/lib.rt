// Text and bytes on a writer, for the programs here.
// Kept (6; no plainer): a caller has n from a call's answer, with no proof that the slice has so many; that is asked once, here.
#![tactic(auto)]

ghost use Rattle.std.specs.Prelude.{◌≡◌, ◌/◌, ◌%◌, ◌<◌, [], ◌∷◌, take, OnOk};
ghost use Rattle.std.specs.Fmt.{decimal as decimal_digits};
ghost use Rattle.std.specs.Io.KnownBytes.{Appends};
ghost use Rattle.print.specs.Digits.{hex_digit, hex_digits, front_digits};

use std::io;
use std::io::Write;

pub fn text<W: Write>(to: &mut W, bytes: &[u8]) -> io::Result<()>
    ensures { OnOk result (Appends (W.contents to.old) (W.contents to.new) bytes.now) }
{
    to.write_all(bytes)
}

pub fn decimal<W: Write>(to: &mut W, n: u64) -> io::Result<()>
    ensures { OnOk result (Appends (W.contents to.old) (W.contents to.new) (decimal_digits n)) }
{
    write!(to, "{n}")
}

// The first n bytes in hexadecimal, or as many as there are.
// Kept (3; no plainer): the range cuts the slice, and the loop goes over its bytes, not over places.
pub fn hex<W: Write>(to: &mut W, bytes: &[u8], n: usize) -> io::Result<()>
    ensures { OnOk result (Appends (W.contents to.old) (W.contents to.new) (hex_digits (take n bytes.now))) }
{
    for b in &bytes[..n.min(bytes.len())] {
        byte(to, *b)?;
    }
    Ok(())
}

// The first n bytes, or the first 16 and two dots.
pub fn front<W: Write>(to: &mut W, bytes: &[u8], n: usize) -> io::Result<()>
    ensures { OnOk result (Appends (W.contents to.old) (W.contents to.new) (front_digits n bytes.now)) }
{
    if n <= 16 {
        hex(to, bytes, n)
    } else {
        hex(to, bytes, 16)?;
        text(to, b"..")
    }
}

// Its two digits, the higher first, in one write: on standard output each write is a system call.
fn byte<W: Write>(to: &mut W, b: u8) -> io::Result<()>
    ensures { OnOk result (Appends (W.contents to.old) (W.contents to.new)
        (hex_digit (b / 16) ∷ hex_digit (b % 16) ∷ [])) }
{
    to.write_all(&[digit(b / 16), digit(b % 16)])
}

fn digit(d: u8) -> u8
    requires { d < 16 }
    ensures { result ≡ hex_digit d }
{
    if d <= 9 { b'0' + d } else { b'a' - 10 + d }
}
