//! An image in memory: which addresses are inside, what stands there, and where control goes on.

#![tactic(auto)]

ghost use Rattle.std.specs.Prelude.{◌≡◌, ◌+◌, ◌≤◌, ◌<◌, length};
ghost use Rattle.image.specs.Image.{inside, byte_at, word_at, branch_target};
ghost use Rattle.image.specs.Answers.{place, next_of, wrapped_byte};

mod placed;

pub use placed::Image;
use refusal::Refusal;

// The first and the last address of an image.
#[derive(Clone, Copy, Debug, PartialEq, Eq)]
pub struct Bounds {
    pub load: u16,
    pub last: u16,
}

impl Bounds {
    // The bounds of an image of `size` bytes, or why it has no place: it is empty, or it ends past 0xFFFF.
    pub fn new(load: u16, size: usize) -> Result<Bounds, Refusal>
        ensures { result ≡ place load size }
    {
        if size == 0 {
            return Err(Refusal::ImageEmpty);
        }
        let room = 0xFFFF - load;
        if size - 1 <= room as usize {
            Ok(Bounds {
                load,
                last: load + (size - 1) as u16,
            })
        } else {
            Err(Refusal::PastTop)
        }
    }

    #[tactic(auto, unfolding(crate::specs::Image::inside))]
    pub fn inside(self, a: u16) -> bool
        ensures { result ≡ inside self.load self.last a }
    {
        self.load <= a && a <= self.last
    }

    // The Rust's `fallthrough`: the address after an instruction of `n` bytes at `a`.
    pub fn next(self, a: u16, n: u16) -> Option<u16>
        ensures { result ≡ next_of self.load self.last a n }
    {
        let b = a.checked_add(n)?;
        if self.inside(b) { Some(b) } else { None }
    }
}

// The target of a branch: the next address plus the signed offset, modulo 65,536.
#[tactic(auto, unfolding(crate::specs::Image::branch_target))]
pub fn branch_target(next: u16, offset: u8) -> u16
    ensures { result ≡ branch_target next offset }
{
    if offset < 128 {
        next.wrapping_add(u16::from(offset))
    } else {
        next.wrapping_sub(256 - u16::from(offset))
    }
}

// The byte at an address inside. It needs no more than that byte, so that the lent bytes may end past the top.
#[tactic(auto, unfolding(crate::specs::Image::byte_at))]
pub fn byte(image: &[u8], load: u16, a: u16) -> u8
    requires { (load ≤ a) × (a < load + length image.now) }
    ensures { result ≡ byte_at image.now load a }
{
    image[(a - load) as usize]
}

// The word at two addresses inside, its low byte first.
pub fn word(image: &[u8], load: u16, a: u16) -> u16
    requires { (load ≤ a) × (a + 1 < load + length image.now) × (a < 0xFFFF) }
    ensures { result ≡ word_at image.now load a }
{
    let low = byte(image, load, a);
    let high = byte(image, load, a + 1);
    u16::from(low) + 256 * u16::from(high)
}

// The byte at an address of the whole memory. Both the address and the offset wrap on purpose: the byte after 0xFFFF is that at 0.
pub fn wrapped_byte(image: &[u8], load: u16, a: u16) -> Option<u8>
    ensures { result ≡ wrapped_byte image.now load a }
{
    image.get(a.wrapping_sub(load) as usize).copied()
}
