// Dirty pages in place, a number for each frame: the seat. A seat is the frame's first group times 65,536 and its page; below 65,536
// the frame is free. It is one number in place of a struct for speed: a test of a frame reads one word.
ghost use Rattle.std.specs.Prelude.{◌≡◌, Bool, false, not, map, ◌+◌, ◌*◌, ◌≤◌, ◌<◌, length};
ghost use Rattle.block.specs.Sizes.{page_size, sequence_end};
ghost use Rattle.promises.specs.Sums.{first_groups, smallest};
ghost use Rattle.table.specs.Search.{is_free, place_of, seat_of};
ghost use Rattle.promises.specs.States.{is_of};
ghost use Rattle.table.specs.Table.{Enters, Applies, Drops};
ghost use Rattle.table.specs.Seats.{entry_in, dirty_in, seated};

use block::Block;
use promises::Dirty;

// The frame that holds a page; the count of frames where none does.
pub fn frame_of(seats: &[u64], page: usize) -> usize
    ensures { (result ≡ place_of (is_of page) (map entry_in seats.now)) × (result ≤ length seats.now) }
{
    seats
        .iter()
        .position(|seat| 65536 <= *seat && *seat % 65536 == page as u64)
        .unwrap_or(seats.len())
}

// The lowest free frame; the count of frames where there is none.
fn free_frame(seats: &[u64]) -> usize
    ensures { (result ≡ place_of is_free (map entry_in seats.now)) × (result ≤ length seats.now) }
{
    seats
        .iter()
        .position(|seat| *seat < 65536)
        .unwrap_or(seats.len())
}

// The frame that holds a page, else the lowest free one, else the count of frames.
fn seat(seats: &[u64], page: usize) -> usize
    ensures { (result ≡ seat_of (seated false seats.now) page) × (result ≤ length seats.now) }
{
    let i = frame_of(seats, page);
    if i < seats.len() {
        return i;
    }
    free_frame(seats)
}

// A free frame takes a page's bytes from home; a frame in use stays.
fn enter(seats: &mut [u64], home: &[u8], frames: &mut [u8], i: usize, page: usize, group: u64)
    requires { (i < length seats.old) × (length seats.old ≤ 32) × (length frames.old ≡ length seats.old * page_size) × (page * page_size + page_size ≤ length home.now) × (page < 4096) × (1 ≤ group) × (group < sequence_end) }
    ensures { Enters (seated false seats.old) home.now frames.old i page group (seated false seats.new) frames.new }
{
    let held = seats[i];
    if held < 65536 {
        let from = page * Block::PAGE;
        area::copy_part(frames, i * Block::PAGE, home, from, Block::PAGE);
        seats[i] = group * 65536 + page as u64;
    }
}

// A committed update, of the group that started at this sequence, goes to its page's frame; a page that is not dirty yet takes the
// lowest free frame, and home's bytes first. False: there is no frame for the page, and nothing changes.
pub fn apply(
    seats: &mut [u64],
    home: &[u8],
    frames: &mut [u8],
    page: usize,
    offset: usize,
    bytes: &[u8],
    group: u64,
) -> bool
    requires { (length seats.old ≤ 32) × (length frames.old ≡ length seats.old * page_size) × (page * page_size + page_size ≤ length home.now) × (page < 4096) × (offset + length bytes.now ≤ page_size) × (1 ≤ group) × (group < sequence_end) }
    ensures { Applies (seated false seats.old) home.now frames.old (record { page = page; offset = offset; bytes = bytes.now }) group (seated (not result) seats.new) frames.new }
{
    let i = seat(seats, page);
    if seats.len() <= i {
        return false;
    }
    enter(seats, home, frames, i, page, group);
    area::copy_part(frames, i * Block::PAGE + offset, bytes, 0, bytes.len());
    true
}

// The page is dirty no more.
pub fn drop_page(seats: &mut [u64], page: usize)
    requires { length seats.old ≤ 32 }
    ensures { (full : Bool) → Drops (seated full seats.old) page (seated full seats.new) }
{
    let i = frame_of(seats, page);
    if i < seats.len() {
        seats[i] = 0;
    }
}

// The smallest of a sequence and the first groups.
pub fn oldest(seats: &[u64], own: u64) -> u64
    ensures { (result ≡ smallest own (first_groups (dirty_in seats.now))) × (result ≤ own) }
{
    let mut low = own;
    for seat in seats {
        let first = *seat / 65536;
        if first != 0 {
            low = low.min(first);
        }
    }
    low
}

// The count of dirty pages.
pub fn dirty_pages(seats: &[u64]) -> usize
    ensures { (result ≡ length (first_groups (dirty_in seats.now))) × (result ≤ length seats.now) }
{
    seats.iter().filter(|seat| 65536 <= **seat).count()
}

// The entry that a seat stands for.
fn entry(seat: u64) -> Dirty
    ensures { result ≡ entry_in seat }
{
    if seat < 65536 {
        return Dirty { page: 0, first: 0 };
    }
    Dirty {
        page: (seat % 65536) as u16,
        first: seat / 65536,
    }
}

// The seats as a state's entries.
pub fn entries(seats: &[u64]) -> [Dirty; 32]
    requires { length seats.now ≤ 32 }
    ensures { result ≡ dirty_in seats.now }
{
    let mut dirty = [Dirty { page: 0, first: 0 }; 32];
    for (i, seat) in seats.iter().enumerate() {
        dirty[i] = entry(*seat);
    }
    dirty
}
