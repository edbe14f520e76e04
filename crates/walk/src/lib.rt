//! One walk for span, diagnosis and stores. It says which addresses were met and how it ended, and nothing else.

#![tactic(auto)]

ghost use Rattle.std.specs.Prelude.{◌≡◌, ◌≤◌, ◌<◌};
ghost use Rattle.mos6502.specs.Class.{manual_class};
ghost use Rattle.image.specs.Image.{inside};
ghost use Rattle.site.specs.Site.{site_in};
ghost use Rattle.walk.specs.Step.{goes_to, forks_to, follow, calls, is_clear, is_pointer};
ghost use Rattle.walk.specs.Step.{is_passable, is_accepted, is_outside, is_lost, leaves, accepts, step_by};
ghost use Rattle.walk.specs.Walked.{outcome_of, Cleared, Walked};

use arrayvec::ArrayVec;
use cause::RefusalCause;
use image::{Bounds, Image};
use mos6502::Flow;
use refusal::Refusal;
use site::{Causes, Site};

// Whose walk it is.
#[derive(Clone, Copy)]
pub enum Rule {
    Span,
    Diagnosis,
    Stores,
}

// What a site does to the path that meets it.
#[derive(Clone, Copy)]
pub enum Step {
    Ends,
    Refuses,
    Goes(u16),
    Forks(u16, u16),
}

// How a walk ended, and where.
#[derive(Clone, Copy)]
pub enum End {
    Finished,
    Refused(u16),
    Spent(u16),
    Full(u16),
}

impl End {
    // A walk that did not finish has no answer: it met a refused site or too many instructions, or too many addresses were pending.
    pub fn finished(self) -> Result<(), Refusal>
        ensures { result ≡ outcome_of self }
    {
        match self {
            End::Finished => Ok(()),
            End::Refused(_) | End::Spent(_) => Err(Refusal::Refused),
            End::Full(_) => Err(Refusal::Full),
        }
    }
}

// Instructions that a walk may meet.
const BUDGET: usize = 4096;

// Addresses that may be pending.
const PENDING: usize = 4096;

// ROM entry points that a routine may call without losing what is known of its stores.
const ROM_NO_USER_RAM_WRITE: [u16; 2] = [0xFFE1, 0xFFE4];

fn goes_to(a: Option<u16>) -> Step
    ensures { result ≡ goes_to a }
{
    match a {
        Some(n) => Step::Goes(n),
        None => Step::Ends,
    }
}

// An address outside is not put by.
fn forks_to(bounds: Bounds, next: Option<u16>, target: Option<u16>) -> Step
    ensures { result ≡ forks_to (inside bounds.load bounds.last) next target }
{
    match (next, target) {
        (Some(n), Some(t)) if bounds.inside(t) => Step::Forks(n, t),
        (Some(n), _) => Step::Goes(n),
        (None, _) => Step::Ends,
    }
}

fn follow(bounds: Bounds, flow: Flow, next: Option<u16>, target: Option<u16>) -> Step
    ensures { result ≡ follow (inside bounds.load bounds.last) flow next target }
{
    match flow {
        Flow::Next => goes_to(next),
        Flow::Jump => goes_to(target),
        Flow::Call | Flow::Branch => forks_to(bounds, next, target),
        Flow::Stop | Flow::Refuse => Step::Ends,
    }
}

// Where a refused site still leads: a call that runs off the end has its target.
fn calls(flow: Flow, target: Option<u16>) -> Step
    ensures { result ≡ calls flow target }
{
    match flow {
        Flow::Call => goes_to(target),
        _ => Step::Ends,
    }
}

fn is_clear(causes: Causes) -> bool
    ensures { result ≡ is_clear causes }
{
    matches!(causes, Causes::Clear)
}

// Whether the cause is one of the two that a pointer gives.
pub fn is_pointer(cause: RefusalCause) -> bool
    ensures { result ≡ is_pointer cause }
{
    matches!(
        cause,
        RefusalCause::IndirectIndexedY | RefusalCause::IndirectIndexedX
    )
}

fn is_passable(causes: Causes) -> bool
    ensures { result ≡ is_passable causes }
{
    match causes {
        Causes::Clear => true,
        Causes::One(c) => is_pointer(c),
        Causes::Two(c, d) => is_pointer(c) && is_pointer(d),
    }
}

fn is_accepted(t: u16) -> bool
    ensures { result ≡ is_accepted t }
{
    ROM_NO_USER_RAM_WRITE.contains(&t)
}

fn is_outside(bounds: Bounds, target: Option<u16>) -> bool
    ensures { result ≡ is_outside (inside bounds.load bounds.last) target }
{
    match target {
        Some(t) => !bounds.inside(t),
        None => false,
    }
}

fn is_lost(bounds: Bounds, target: Option<u16>) -> bool
    ensures { result ≡ is_lost (inside bounds.load bounds.last) target }
{
    match target {
        Some(t) => !bounds.inside(t) && !is_accepted(t),
        None => false,
    }
}

// Whether control leaves the image for where nobody knows what is stored.
fn leaves(bounds: Bounds, flow: Flow, target: Option<u16>) -> bool
    ensures { result ≡ leaves (inside bounds.load bounds.last) flow target }
{
    match flow {
        Flow::Jump | Flow::Call => is_lost(bounds, target),
        Flow::Branch => is_outside(bounds, target),
        Flow::Next | Flow::Stop | Flow::Refuse => false,
    }
}

// Whether a rule passes a site.
fn accepts(s: Site, bounds: Bounds, rule: Rule) -> bool
    ensures { result ≡ accepts rule (inside bounds.load bounds.last) s }
{
    match rule {
        Rule::Span => is_clear(s.causes),
        Rule::Diagnosis => is_passable(s.causes),
        Rule::Stores => is_passable(s.causes) && !leaves(bounds, s.flow, s.target),
    }
}

// The step of a site under a rule.
#[tactic(auto, unfolding(crate::specs::Step::step_by))]
pub fn step_of(s: Site, bounds: Bounds, rule: Rule) -> Step
    ensures { result ≡ step_by rule (inside bounds.load bounds.last) s }
{
    if accepts(s, bounds, rule) {
        return follow(bounds, s.flow, s.next, s.target);
    }
    match rule {
        Rule::Span | Rule::Stores => Step::Refuses,
        Rule::Diagnosis => calls(s.flow, s.target),
    }
}

fn step_at(image: Image<'_>, a: u16, rule: Rule) -> Step
    requires { (image.bounds.load ≤ a) × (a ≤ image.bounds.last) }
    ensures { result ≡ step_by rule (inside image.entry.bounds.load image.entry.bounds.last)
        (site_in manual_class image.entry.bytes.now image.entry.bounds.load image.entry.bounds.last a) }
{
    step_of(site::site_at(image, a), image.bounds, rule)
}

// Takes the last entry first, and what was put by, the latest first, before the next entry. An entry is put by only while nothing else is, and taken at once,
// so the limit of pending addresses is met at forks alone.
pub fn walk(image: Image<'_>, entries: &[u16], rule: Rule, map: &mut [u8; 8192]) -> End
    requires { Cleared map.old }
    ensures { Walked rule image.entry.bytes.now image.entry.bounds.load image.entry.bounds.last entries.now result map.new }
{
    let mut pending: ArrayVec<u16, PENDING> = ArrayVec::new();
    let mut met: usize = 0;
    let mut end = End::Finished;
    'outer: for &entry in entries.iter().rev() {
        pending.push(entry);
        while let Some(start) = pending.pop() {
            let mut pc = start;
            loop {
                if !image.bounds.inside(pc) || !address_set::insert(map, pc) {
                    break;
                }
                // The address after the last one allowed leaves all loops at once, by the outer label as in the original.
                if met == BUDGET {
                    end = End::Spent(pc);
                    break 'outer;
                }
                met += 1;
                match step_at(image, pc, rule) {
                    Step::Ends => break,
                    Step::Refuses => {
                        end = End::Refused(pc);
                        break 'outer;
                    }
                    Step::Goes(n) => pc = n,
                    Step::Forks(n, t) => match pending.try_push(t) {
                        Ok(()) => pc = n,
                        Err(_) => {
                            end = End::Full(pc);
                            break 'outer;
                        }
                    },
                }
            }
        }
    }
    end
}
