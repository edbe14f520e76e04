//! A set of 16-bit addresses: a map of 65,536 bits in 8,192 bytes, in place of the Rust's `BTreeSet<u16>`.
//! An empty set is `[0u8; 8192]`.

#![tactic(auto)]

ghost use Rattle.std.specs.Prelude.{◌≡◌, ◌<◌, length};
ghost use Rattle.std.specs.Iterator.{YieldsFirst, item_count};
ghost use Rattle.address_set.specs.Map.{has, members, Inserted, Within, members_in};
ghost use Rattle.address_set.specs.Next.{left, Next, Lowest};

// Whether `a` is a member.
pub fn contains(map: &[u8; 8192], a: u16) -> bool
    ensures { result ≡ has map.now a }
{
    let i = (a / 8) as usize;
    let x = map[i];
    (x >> (a % 8)) % 2 == 1
}

// Adds `a`, and changes no other member; true where `a` was no member before.
pub fn insert(map: &mut [u8; 8192], a: u16) -> bool
    ensures { Inserted map.old a map.new result }
{
    let i = (a / 8) as usize;
    let x = map[i];
    map[i] = x | (1 << (a % 8));
    (x >> (a % 8)) % 2 == 0
}

// How many members there are, where all of them lie from `first` to `last`.
// Only the bytes from `first / 8` to `last / 8` are read, so that a small image costs little.
pub fn size(map: &[u8; 8192], first: u16, last: u16) -> u32
    requires { Within first last map.now }
    ensures { result ≡ length (members map.now) }
{
    let top = (last / 8) as usize;
    // Where `first` is past `last` there are no members, and the range is still one of the map's.
    let bottom = ((first / 8) as usize).min(top);
    let mut n = 0;
    for &x in &map[bottom..top + 1] {
        n += x.count_ones();
    }
    n
}

// The lowest place of a byte, from s on, whose bit is set.
fn low_from(x: u8, s: u32) -> Option<u32>
    requires { s < 8 }
    ensures { Lowest x s result }
{
    let rest = x >> s;
    if rest == 0 {
        return None;
    }
    Some(s + rest.trailing_zeros())
}

// The least member from `from` to `last`, both included; none where `from` is past `last`.
// Only the bytes from `from / 8` to `last / 8` are read, so that a small image costs little.
pub fn next_in(map: &[u8; 8192], from: u32, last: u16) -> Option<u16>
    ensures { Next map.now from last result }
{
    let bottom = (from / 8) as usize;
    let end = (last / 8) as usize;
    let mut s = from % 8;
    for i in bottom..end + 1 {
        if let Some(r) = low_from(map[i], s) {
            let a = i as u16 * 8 + r as u16;
            // The byte of `last` has bits past it.
            return if a <= last { Some(a) } else { None };
        }
        s = 0;
    }
    None
}

// The members from an address on to `last`, ascending: what `members_in` gives, for a `for`.
#[derive(Clone, Copy)]
pub struct Members<'a> {
    pub map: &'a [u8; 8192],
    pub from: u32,
    pub last: u16,
}

impl<'a> Iterator for Members<'a> {
    type Item = u16;

    ghost next_gives = { YieldsFirst left };

    ghost remaining = { item_count left };

    fn next(&mut self) -> Option<u16> {
        let a = next_in(self.map, self.from, self.last)?;
        self.from = a as u32 + 1;
        Some(a)
    }
}

// The members from `first` to `last`, ascending.
pub fn members_in(map: &[u8; 8192], first: u16, last: u16) -> Members<'_>
    ensures { left result ≡ members_in first last map.now }
{
    Members {
        map,
        from: first as u32,
        last,
    }
}
