//! The face for C: the six calls of `image_reach` under their names in C, each with the same clauses. `image_reach` is the library for callers in Rattle.

#![tactic(auto)]

ghost use Rattle.site.specs.declared.Reading.TheVariants.{Plain, Guarded};
ghost use Rattle.image_reach.specs.Face.{TellsSpan, TellsEnd, TellsDiagnosis, TellsStores, TellsTracker};

// The plain span: low, high and the number of reachable instructions.
#[unsafe(no_mangle)]
pub extern "C" fn image_reach_span(
    image: &[u8],
    load: u16,
    entries: &[u16],
    low: &mut u16,
    high: &mut u16,
    count: &mut u32,
) -> u32
    ensures { TellsSpan image.now load entries.now Plain result low.new high.new count.new }
{
    image_reach::image_reach_span(image, load, entries, low, high, count)
}

// The guarded span, told in the same way.
#[unsafe(no_mangle)]
pub extern "C" fn image_reach_guarded_span(
    image: &[u8],
    load: u16,
    entries: &[u16],
    low: &mut u16,
    high: &mut u16,
    count: &mut u32,
) -> u32
    ensures { TellsSpan image.now load entries.now Guarded result low.new high.new count.new }
{
    image_reach::image_reach_guarded_span(image, load, entries, low, high, count)
}

// The plain span's high alone.
#[unsafe(no_mangle)]
pub extern "C" fn image_reach_end(image: &[u8], load: u16, entries: &[u16], high: &mut u16) -> u32
    ensures { TellsEnd image.now load entries.now result high.new }
{
    image_reach::image_reach_end(image, load, entries, high)
}

// The diagnosis: the range, the number of addresses met, and the number of records, which the lent list gets. On 6 `records` is the number needed.
#[unsafe(no_mangle)]
pub extern "C" fn image_reach_diagnose(
    image: &[u8],
    load: u16,
    entries: &[u16],
    slots: &mut [u64],
    low: &mut u16,
    high: &mut u16,
    count: &mut u32,
    records: &mut usize,
) -> u32
    ensures { TellsDiagnosis image.now load entries.now slots.old slots.new result low.new high.new count.new records.new }
{
    image_reach::image_reach_diagnose(image, load, entries, slots, low, high, count, records)
}

// The store spans: the number of records, which the lent list gets. On 6 `records` is the number needed.
#[unsafe(no_mangle)]
pub extern "C" fn image_reach_write_extent(
    image: &[u8],
    load: u16,
    entries: &[u16],
    slots: &mut [u32],
    records: &mut usize,
) -> u32
    ensures { TellsStores image.now load entries.now slots.old slots.new result records.new }
{
    image_reach::image_reach_write_extent(image, load, entries, slots, records)
}

// The tracker: A, X and Y with a mark of 1 for each that is known, and the zero page with its marks. What is not known is 0.
#[unsafe(no_mangle)]
pub extern "C" fn image_reach_track_immediates(
    code: &[u8],
    registers: &mut [u8; 3],
    known: &mut [u8; 3],
    zp: &mut [u8; 256],
    marks: &mut [u8; 256],
)
    ensures { TellsTracker code.now registers.new known.new zp.new marks.new }
{
    image_reach::image_reach_track_immediates(code, registers, known, zp, marks)
}
