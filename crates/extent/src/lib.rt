//! The smallest range that covers what is named: the pass over the addresses met that span and diagnosis share.

#![tactic(auto)]

ghost use Rattle.std.specs.Prelude.{◌≡◌, true, ◌+◌, ◌≤◌, ◌<◌};
ghost use Rattle.extent.specs.Extent.{widen, widen_run, nothing, over_entries, widen_site, is_skipped, extent_in};

use image::{Bounds, Image};
use site::{Reading, Run, Site};

#[derive(Clone, Copy, Debug, PartialEq, Eq)]
pub struct Extent {
    pub low: u16,
    pub high: u16,
}

impl Extent {
    // With `a` and `b`, and all between.
    fn widen(self, a: u16, b: u16) -> Extent
        ensures { result ≡ widen self a b }
    {
        Extent {
            low: self.low.min(a),
            high: self.high.max(b),
        }
    }

    fn widen_run(self, run: Option<Run>) -> Extent
        ensures { result ≡ widen_run self run }
    {
        match run {
            Some(r) => self.widen(r.low, r.high),
            None => self,
        }
    }

    // With the bytes of the instruction at `a`, and what its operand names.
    fn widen_site(self, bounds: Bounds, a: u16, s: Site, reading: Reading) -> Extent
        requires { s.whole ≡ true → (0 < s.len) × (a + s.len ≤ 65536) }
        ensures { result ≡ widen_site reading bounds.load bounds.last a s self }
    {
        let covered = if s.whole {
            self.widen(a, a + (s.len - 1))
        } else {
            self
        };
        covered.widen_run(site::named(s, bounds, reading))
    }
}

// Whether an address is the one that was met and not decoded.
pub fn is_skipped(undecoded: Option<u16>, a: u16) -> bool
    ensures { result ≡ is_skipped undecoded a }
{
    undecoded == Some(a)
}

// With the entries that are inside.
#[tactic(auto, unfolding(crate::specs::Extent::over_entries))]
fn over_entries(entries: &[u16], bounds: Bounds) -> Extent
    ensures { result ≡ over_entries bounds.load bounds.last entries.now (nothing bounds.load bounds.last) }
{
    let mut e = Extent {
        low: bounds.last,
        high: bounds.load,
    };
    for &x in entries {
        if bounds.inside(x) {
            e = e.widen(x, x);
        }
    }
    e
}

// The range that covers the entries inside and what the sites at the map's members name. `undecoded` is a member that does not count.
#[tactic(auto, unfolding(crate::specs::Extent::over_sites))]
pub fn extent_of(
    image: Image<'_>,
    entries: &[u16],
    map: &[u8; 8192],
    undecoded: Option<u16>,
    reading: Reading,
) -> Extent
    ensures { result ≡ extent_in reading image.entry.bytes.now image.entry.bounds.load image.entry.bounds.last undecoded entries.now map.now }
{
    let bounds = image.bounds;
    let mut e = over_entries(entries, bounds);
    for a in address_set::members_in(map, bounds.load, bounds.last) {
        if !is_skipped(undecoded, a) {
            e = e.widen_site(bounds, a, site::site_at(image, a), reading);
        }
    }
    Extent {
        low: e.low.min(e.high),
        high: e.high,
    }
}
