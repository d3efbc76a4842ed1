// What an append stores: a scalar of fixed size, bytes of a kind, or a UUID.
ghost use Rattle.std.specs.Prelude.{◌≡◌, List, ℕ, length};
ghost use Rattle.encoding.specs.Slices.{Writes};

use encoding::slices::NoRoom;

pub trait Stored {
    ghost stored: { Self → List ℕ };

    // How many bytes it takes.
    fn size(&self) -> usize
        ensures { result ≡ length (stored self.now) };

    // Its bytes at place `at`, if they fit there.
    // Kept (6; project rule): a caller stores behind the bytes that it has used, and a place with no room is an answer.
    fn write(&self, buf: &mut [u8], at: usize) -> Result<(), NoRoom>
        ensures { Writes at (stored self.now) buf.old result buf.new };
}
