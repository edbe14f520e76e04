//! An image at its place: its bytes, which lie within its bounds.

ghost use Rattle.std.specs.Prelude.{◌≡◌, ◌<◌, ◌≤◌};
ghost use Rattle.image.specs.Image.{Lies, byte_at, word_at};

use crate::Bounds;

// The lent bytes of an image, and the first and the last address that they have.
#[derive(Clone, Copy)]
pub struct Image<'a> {
    pub bytes: &'a [u8],
    pub bounds: Bounds,
    pub ghost lies: { Lies bytes.now bounds.load bounds.last },
}

impl Image<'_> {
    // The byte at an address inside.
    pub fn byte(self, a: u16) -> u8
        requires { (self.bounds.load ≤ a) × (a ≤ self.bounds.last) }
        ensures { result ≡ byte_at self.entry.bytes.now self.entry.bounds.load a }
    {
        crate::byte(self.bytes, self.bounds.load, a)
    }

    // The word at two addresses inside, its low byte first.
    pub fn word(self, a: u16) -> u16
        requires { (self.bounds.load ≤ a) × (a < self.bounds.last) }
        ensures { result ≡ word_at self.entry.bytes.now self.entry.bounds.load a }
    {
        crate::word(self.bytes, self.bounds.load, a)
    }
}
