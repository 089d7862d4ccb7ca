// Open's walk over a log's blocks without bytes: a dirty page is its number and its first group, an update is its page. No home and no
// frames are needed for it. It knows a block's fields, the order of blocks from recovery, and nothing of a log.
#![tactic(auto)]

ghost use Rattle.std.specs.Prelude.{◌≡◌, [], ◌+◌, ◌≤◌, ◌<◌, length, IfOk, MatchResult};
ghost use Rattle.block.specs.Sizes.{sequence_end};
ghost use Rattle.block.specs.declared.Kind.TheVariants.{Update, Commit, Clean};
ghost use Rattle.recovery.specs.Walking.{out_of_order_at};
ghost use Rattle.outline.specs.Marks.{marked, marked_all, unmarked, earliest as earliest_of};
ghost use Rattle.outline.specs.Outline.{step, ended, started, sketch_in, Bounded, Ordinary, Turns, Meets};

mod mark_list;
mod page_list;

use block::{Block, Kind};
pub use mark_list::Marks;
pub use page_list::Pages;
use promises::{Refusal, Stop};

// The frames of the store whose Open the walk answers for.
pub const FRAMES: usize = 32;

// The most updates of a group.
pub const GROUP: usize = 16;

// A dirty page and its first group.
#[derive(Clone, Copy, Default)]
pub struct Mark {
    pub page: usize,
    pub first: u64,
}

// A half group: its first sequence and its updates' pages. Start 0 and no page where there is none.
#[derive(Clone, Copy)]
pub struct Group {
    pub start: u64,
    pub pages: Pages,
}

// A walk: the sequence that is next; the last committed ticket; a half group; the dirty pages.
#[derive(Clone, Copy)]
pub struct Course {
    pub next: u64,
    pub ticket: u64,
    pub group: Group,
    pub marks: Marks,
}

// No dirty page.
pub fn no_marks() -> Marks
    ensures { result.items ≡ [] }
{
    Marks::new()
}

// A page is dirty from this group on, unless it was dirty before.
fn mark_page(marks: &mut Marks, page: usize, group: u64)
    requires { length marks.old.items < 48 }
    ensures is { marks.new.items ≡ marked group page marks.old.items }
    ensures few { length marks.new.items ≤ length marks.old.items + 1 }
{
    if !marks.as_slice().iter().any(|mark| page == mark.page) {
        marks.push(Mark { page, first: group });
    }
}

// The pages of a group are dirty.
pub fn mark_group(marks: &mut Marks, group: &Group)
    requires { length marks.old.items ≤ 32 }
    ensures is { marks.new.items ≡ marked_all group.now.start group.now.pages.items marks.old.items }
    ensures few { length marks.new.items ≤ 48 }
{
    for page in group.pages.as_slice() {
        mark_page(marks, *page, group.start);
    }
}

// A page is dirty no more.
pub fn unmark_page(marks: &mut Marks, page: usize)
    ensures is { marks.new.items ≡ unmarked page marks.old.items }
    ensures few { length marks.new.items ≤ length marks.old.items }
{
    let mut kept = Marks::new();
    for mark in marks.as_slice() {
        if page != mark.page {
            kept.push(*mark);
        }
    }
    *marks = kept;
}

// The smallest first group, and own where there is none.
pub fn earliest(marks: &Marks, own: u64) -> u64
    ensures is { result ≡ earliest_of own marks.now.items }
    ensures most { result ≤ own }
{
    marks
        .as_slice()
        .iter()
        .fold(own, |low, mark| low.min(mark.first))
}

// No half group.
fn no_group() -> Group
    ensures is { result.pages.items ≡ [] }
    ensures start { result.start ≡ 0 }
{
    Group {
        start: 0,
        pages: Pages::new(),
    }
}

// Refusal 8 at a place.
fn out_of_order(place: u64) -> Stop
    ensures { result ≡ out_of_order_at place }
{
    Stop {
        refusal: Refusal::LogOutOfOrder,
        place,
    }
}

// The walk over an update.
fn walk_update(mut course: Course, index: usize, page: usize, ticket: u64) -> Result<Course, Stop>
    requires { Meets (Update index page 0 0) ticket course }
    ensures { Turns (Update index page 0 0) ticket course result }
{
    let count = course.group.pages.len();
    if !recovery::order::update_fits(index, ticket, count, course.ticket) {
        return Err(out_of_order(course.next));
    }
    if index == 1 {
        course.group = Group {
            start: course.next,
            pages: Pages::new(),
        };
    }
    course.group.pages.push(page);
    course.ticket = ticket;
    course.next += 1;
    Ok(course)
}

// The walk over a commit.
fn walk_commit(mut course: Course, updates: usize, ticket: u64) -> Result<Course, Stop>
    requires { Meets (Commit updates) ticket course }
    ensures { Turns (Commit updates) ticket course result }
{
    let count = course.group.pages.len();
    if !recovery::order::commit_fits(updates, ticket, count, course.ticket) {
        return Err(out_of_order(course.next));
    }
    mark_group(&mut course.marks, &course.group);
    if FRAMES < course.marks.len() {
        return Err(Stop {
            refusal: Refusal::TooFewFrames,
            place: course.next,
        });
    }
    course.group = no_group();
    course.ticket = ticket;
    course.next += 1;
    Ok(course)
}

// The walk over a clean.
fn walk_clean(mut course: Course, page: usize, ticket: u64) -> Result<Course, Stop>
    requires { Meets (Clean page) ticket course }
    ensures { Turns (Clean page) ticket course result }
{
    if !recovery::order::clean_fits(ticket, course.ticket) {
        return Err(out_of_order(course.next));
    }
    unmark_page(&mut course.marks, page);
    course.group = no_group();
    course.ticket = ticket;
    course.next += 1;
    Ok(course)
}

// The walk over a block, by a walk that goes on.
fn turn_on(course: Course, block: Block) -> Result<Course, Stop>
    requires { Bounded course × (course.next < sequence_end) × Ordinary block }
    ensures { (sketch_in result ≡ step 32 block (sketch_in (Ok course))) × MatchResult result (λ walked. Bounded walked × (walked.next ≡ course.next + 1)) (λ stop. stop.place ≡ course.next) }
{
    match block.kind {
        Kind::Update { index, page, .. } => walk_update(course, index, page, block.ticket),
        Kind::Commit { updates } => walk_commit(course, updates, block.ticket),
        Kind::Clean { page } => walk_clean(course, page, block.ticket),
    }
}

// The walk over a block; nothing happens once refused.
pub fn turn(course: Result<Course, Stop>, block: Block) -> Result<Course, Stop>
    requires { IfOk course (λ walk. Bounded walk × (walk.next < sequence_end)) × Ordinary block }
    ensures { (sketch_in result ≡ step 32 block (sketch_in course)) × IfOk course (λ walk. MatchResult result (λ walked. Bounded walked × (walked.next ≡ walk.next + 1)) (λ stop. stop.place ≡ walk.next)) }
{
    turn_on(course?, block)
}

// A walk that starts at a sequence, with the ticket of its first block.
pub fn start(sequence: u64, ticket: u64) -> Course
    requires { ticket < sequence_end }
    ensures { (sketch_in (Ok result) ≡ started sequence ticket) × Bounded result × (result.next ≡ sequence) }
{
    Course {
        next: sequence,
        ticket,
        group: no_group(),
        marks: Marks::new(),
    }
}

// The last test of a walk that goes on.
fn test_on(course: Course, slots: u64) -> Result<Course, Stop>
    requires { Bounded course × (1 ≤ course.next) × (course.next ≤ sequence_end) }
    ensures { sketch_in result ≡ ended slots (sketch_in (Ok course)) }
{
    let low = earliest(&course.marks, course.next);
    if slots < course.next - low + course.marks.len() as u64 {
        return Err(out_of_order(course.next - 1));
    }
    Ok(course)
}

// The last test: what cleaning needs is within a log of so many slots. Nothing happens once refused.
#[tactic(auto, unfolding(crate::specs::Outline::ended))]
pub fn last_test(course: Result<Course, Stop>, slots: u64) -> Result<Course, Stop>
    requires { IfOk course (λ walk. Bounded walk × (1 ≤ walk.next) × (walk.next ≤ sequence_end)) }
    ensures { sketch_in result ≡ ended slots (sketch_in course) }
{
    test_on(course?, slots)
}
