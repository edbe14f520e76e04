//! The tests that come before any walk.

#![tactic(auto)]

ghost use Rattle.std.specs.Prelude.{◌≡◌, IfOk};
ghost use Rattle.opening.specs.Opening.{opening_of, bounds_of, all_inside};

use image::{Bounds, Image};
use refusal::Refusal;

// The image at its place, or the refusal: 1, 2 or 3, the lowest wins.
pub fn open<'a>(image: &'a [u8], load: u16, entries: &[u16]) -> Result<Image<'a>, Refusal>
    ensures bounds { bounds_of result ≡ opening_of image.now load entries.now }
    ensures bytes { IfOk result (λ opened. opened.bytes.now ≡ image.now) }
{
    if image.is_empty() {
        return Err(Refusal::ImageEmpty);
    }
    if entries.is_empty() {
        return Err(Refusal::NoEntries);
    }
    let bounds = Bounds::new(load, image.len())?;
    Ok(Image {
        bytes: image,
        bounds,
    })
}

// Whether every entry is inside.
pub fn all_inside(entries: &[u16], bounds: Bounds) -> bool
    ensures { result ≡ all_inside bounds.load bounds.last entries.now }
{
    for &a in entries {
        if !bounds.inside(a) {
            return false;
        }
    }
    true
}
