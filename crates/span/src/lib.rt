//! The part of an image that calls can reach: the plain span, its end, and the guarded span.

#![tactic(auto)]

ghost use Rattle.mos6502.specs.Class.{manual_class};
ghost use Rattle.site.specs.declared.Reading.TheVariants.{Plain, Guarded};
ghost use Rattle.span.specs.Given.{Answers, EndAnswers};

use refusal::Refusal;
use site::Reading;
use walk::Rule;

// The lowest and the highest address that count, and how many instructions are reachable.
#[derive(Clone, Copy, Debug, PartialEq, Eq)]
pub struct Span {
    pub low: u16,
    pub high: u16,
    pub count: u32,
}

// The span by a reading: the walk, then one pass over what was met.
fn span_by(image: &[u8], load: u16, entries: &[u16], reading: Reading) -> Result<Span, Refusal>
    ensures { Answers manual_class image.now load entries.now reading result }
{
    let image = opening::open(image, load, entries)?;
    let bounds = image.bounds;
    if !opening::all_inside(entries, bounds) {
        return Err(Refusal::Refused);
    }
    let mut map = [0u8; 8192];
    walk::walk(image, entries, Rule::Span, &mut map).finished()?;
    let e = extent::extent_of(image, entries, &map, None, reading);
    Ok(Span {
        low: e.low,
        high: e.high,
        count: address_set::size(&map, bounds.load, bounds.last),
    })
}

// The lowest and the highest image address reachable from `entries`, as the original has it.
pub fn reachable_span(image: &[u8], load: u16, entries: &[u16]) -> Result<Span, Refusal>
    ensures { Answers manual_class image.now load entries.now Plain result }
{
    span_by(image, load, entries, Reading::Plain)
}

// The highest one alone.
pub fn reachable_end(image: &[u8], load: u16, entries: &[u16]) -> Result<u16, Refusal>
    ensures { EndAnswers manual_class image.now load entries.now result }
{
    let s = reachable_span(image, load, entries)?;
    Ok(s.high)
}

// The same walk and the same refusals; an indexed operand counts wherever its base is.
pub fn guarded_span(image: &[u8], load: u16, entries: &[u16]) -> Result<Span, Refusal>
    ensures { Answers manual_class image.now load entries.now Guarded result }
{
    span_by(image, load, entries, Reading::Guarded)
}
