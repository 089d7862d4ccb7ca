// Clean step in parts: what it is refused with, the page that is cleaned, and its three stores: the first half of the page at home, the
// second half, then the clean block in the log. The call itself, with the state that each store leaves, stands in the store.
#![tactic(auto)]

ghost use Rattle.std.specs.Prelude.{◌≡◌, true, ◌+◌, ◌*◌, ◌^◌, ◌≤◌, ◌<◌, length, set, IfOk};
ghost use Rattle.std.specs.Option.{unwrap_or};
ghost use Rattle.area.specs.Part.{part, splice};
ghost use Rattle.block.specs.Sizes.{block_size, page_size};
ghost use Rattle.promises.specs.Areas.{log_length, page_at, first_half, second_half, with_first_half, with_second_half};
ghost use Rattle.promises.specs.Sums.{dirty_count, first_groups, smallest};
ghost use Rattle.promises.specs.Answers.{refusal_in};
ghost use Rattle.promises.specs.Sound.{sound};
ghost use Rattle.soundness.specs.Summed.{Summed, Small};
ghost use Rattle.soundness.specs.Verdicts.{Judges};
ghost use Rattle.promises.specs.CleanStep.{third_refusal, clean_refusal};
ghost use Rattle.promises.specs.declared.Cleaning.TheVariants.{Third};
ghost use Rattle.promises.specs.States.{free};
ghost use Rattle.cleaning.specs.Cleans.{entry_at, rank_in, named_in, stores_made, made_before, Chosen, Fitting, cleaned_log};

use block::Block;
use promises::{Cleaning, Dirty, Refusal, State};
use soundness::sums::Sums;

// What the store of a clean block is refused with: a half-stored group holds it back, or the sequences are used up.
pub fn block_refusal(state: State, sums: Sums) -> Result<(), Refusal>
    requires { (sound state ≡ true) × Summed state sums × Small state sums }
    ensures refusal { refusal_in result ≡ third_refusal state (Third 0) }
    ensures most { refusal_in result ≤ 11 }
{
    if state.stored != 0 {
        return Err(Refusal::HeldBack);
    }
    let owed = soundness::sums::owed(state);
    if state.next + sums.waiting as u64 + owed as u64 == soundness::SEQUENCE_END {
        return Err(Refusal::SequencesUsedUp);
    }
    Ok(())
}

// What a third store is refused with; no other store is refused here.
pub fn third_refusal(state: State, sums: Sums) -> Result<(), Refusal>
    requires { (sound state ≡ true) × Summed state sums × Small state sums }
    ensures refusal { refusal_in result ≡ third_refusal state state.cleaning }
    ensures most { refusal_in result ≤ 11 }
{
    match state.cleaning {
        Cleaning::Third(_) => block_refusal(state, sums),
        _ => Ok(()),
    }
}

// What Clean step is refused with: from the verdict on the state, the state and the lengths of the lent areas. Where it is accepted, the
// sums over the state.
pub fn clean_refusal(
    verdict: Option<Sums>,
    state: State,
    log: usize,
    home: usize,
    frames: usize,
) -> Result<Sums, Refusal>
    requires { Judges state verdict }
    ensures refusal { refusal_in result ≡ clean_refusal state log home frames }
    ensures most { refusal_in result ≤ 11 }
    ensures sums { IfOk result (Summed state) }
{
    let sums = verdict.ok_or(Refusal::NotSound)?;
    if !stepping::areas_fit(state, log, home, frames) {
        return Err(Refusal::WrongLength);
    }
    if sums.dirty == 0 {
        return Err(Refusal::NothingToDo);
    }
    third_refusal(state, sums)?;
    Ok(sums)
}

// An entry's place in the order of cleaning: the named page first, then by first group and by page; a free frame comes last.
pub fn rank(entry: Dirty, named: Option<u16>) -> u64
    requires { entry.first < 2 ^ 48 }
    ensures { result ≡ rank_in (unwrap_or named 65536) entry }
{
    if entry.first == 0 {
        return u64::MAX;
    }
    if named == Some(entry.page) {
        return 0;
    }
    entry.first * 65536 + u64::from(entry.page)
}

// The page that a cleaning names.
fn named_in(cleaning: Cleaning) -> Option<u16>
    ensures { unwrap_or result 65536 ≡ named_in cleaning }
{
    match cleaning {
        Cleaning::Idle => None,
        Cleaning::First(page) | Cleaning::Second(page) | Cleaning::Third(page) => Some(page),
    }
}

// A frame and its entry.
#[derive(Clone, Copy)]
pub struct Choice {
    pub frame: usize,
    pub entry: Dirty,
}

// The frame of the page that is cleaned, where so many are dirty: the one that comes first in the order of cleaning. The search ends with
// the last dirty page, or with the named one, before which none comes.
pub fn frame_to_clean(state: State, count: usize) -> Choice
    requires { (sound state ≡ true) × (dirty_count state ≡ 0 → ⊥) × (count ≡ dirty_count state) }
    ensures { Chosen state result.frame × (result.entry ≡ entry_at state result.frame) }
{
    let named = named_in(state.cleaning);
    // A copy of the entries alone, for speed: a loop over the state's own field copies the whole state.
    let dirty = state.dirty;
    let mut best = 0;
    let mut least = u64::MAX;
    let mut left = count;
    for (i, entry) in dirty.iter().enumerate() {
        if left == 0 || least == 0 {
            break;
        }
        if entry.first != 0 {
            let own = rank(*entry, named);
            if own < least {
                best = i;
                least = own;
            }
            left -= 1;
        }
    }
    Choice {
        frame: best,
        entry: dirty[best],
    }
}

// The store that a cleaning makes next: a half of its page at home, or its block in the log.
#[derive(Clone, Copy)]
pub enum Next {
    FirstHalf,
    SecondHalf,
    Block,
}

// The store that is next, after those that the cleaning has made.
pub fn next_store(cleaning: Cleaning) -> Next
    ensures { made_before result ≡ stores_made cleaning }
{
    match cleaning {
        Cleaning::Idle | Cleaning::First(_) => Next::FirstHalf,
        Cleaning::Second(_) => Next::SecondHalf,
        Cleaning::Third(_) => Next::Block,
    }
}

// Stores half of a frame's page at home: the half from `start` on.
fn store_half(home: &mut [u8], frames: &[u8], choice: Choice, start: usize)
    requires { Fitting (length home.old) (length frames.now) choice.entry.page choice.frame × (start + block_size ≤ page_size) }
    ensures { home.new ≡ splice home.old (choice.entry.page * page_size + start) block_size (part (page_at frames.now choice.frame) start block_size) }
{
    let to = usize::from(choice.entry.page) * Block::PAGE + start;
    let from = choice.frame * Block::PAGE + start;
    stepping::store_half(home, to, frames, from);
}

// Stores the first half of a frame's page at home.
pub fn store_first(home: &mut [u8], frames: &[u8], choice: Choice)
    requires { Fitting (length home.old) (length frames.now) choice.entry.page choice.frame }
    ensures { home.new ≡ with_first_half home.old choice.entry.page (first_half (page_at frames.now choice.frame)) }
{
    store_half(home, frames, choice, 0);
}

// Stores the second half of a frame's page at home.
pub fn store_second(home: &mut [u8], frames: &[u8], choice: Choice)
    requires { Fitting (length home.old) (length frames.now) choice.entry.page choice.frame }
    ensures { home.new ≡ with_second_half home.old choice.entry.page (second_half (page_at frames.now choice.frame)) }
{
    store_half(home, frames, choice, Block::SIZE);
}

// The smallest of the next sequence and the first groups of the frames but one, where so many pages are dirty. The loop ends with the last
// dirty page, for speed.
pub fn oldest_but(state: State, frame: usize, count: usize) -> u64
    requires { count ≡ dirty_count state }
    ensures { result ≡ smallest state.next (first_groups (set state.dirty frame free)) }
{
    // A copy of the entries alone, for speed: a loop over the state's own field copies the whole state.
    let dirty = state.dirty;
    let mut low = state.next;
    let mut left = count;
    for (i, entry) in dirty.iter().enumerate() {
        if left == 0 {
            break;
        }
        if entry.first != 0 {
            if i != frame {
                low = low.min(entry.first);
            }
            left -= 1;
        }
    }
    low
}

// Stores the clean block of a frame's page, one of so many dirty ones.
pub fn store_clean(state: State, count: usize, log: &mut [u8], frames: &[u8], choice: Choice)
    requires { (1 ≤ state.slots) × (state.slots ≤ 1024) × (length log.old ≡ log_length state.slots) × (state.next < 2 ^ 48) × (choice.entry ≡ entry_at state choice.frame) × (count ≡ dirty_count state) }
    ensures { log.new ≡ cleaned_log state log.old choice.frame }
{
    let page = usize::from(choice.entry.page);
    let keep_from = oldest_but(state, choice.frame, count);
    let block = Block::clean(state.next, keep_from, page, state.ticket);
    stepping::store(log, state.slots, block, &frames[..0]);
}
