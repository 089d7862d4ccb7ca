// The queue once its oldest group is committed: the group leaves it, and a cleaning of a page that the group changed is idle again.
// It knows the state and none of the lent areas.
#![tactic(auto)]

ghost use Rattle.std.specs.Prelude.{◌≡◌, ◌≤◌, take};
ghost use Rattle.promises.specs.LogStep.{shifted};
ghost use Rattle.queue.specs.Queue.{changes, cleaning_left};

use promises::{Cleaning, State};

// Whether one of the first count staged updates changes a page.
pub fn page_changed(state: State, count: usize, page: u16) -> bool
    requires { count ≤ 32 }
    ensures { result ≡ changes page (take count state.staged) }
{
    state.staged[..count]
        .iter()
        .any(|update| page == update.page)
}

// The cleaning once the first count staged updates are committed: an idle one if its page changed.
#[tactic(auto, unfolding(crate::specs::Queue::cleaning_left))]
pub fn cleaning_left(state: State, count: usize) -> Cleaning
    requires { count ≤ 32 }
    ensures { result ≡ cleaning_left (take count state.staged) state.cleaning }
{
    let cleaning = state.cleaning;
    match cleaning {
        Cleaning::Idle => Cleaning::Idle,
        Cleaning::First(page) | Cleaning::Second(page) | Cleaning::Third(page) => {
            if page_changed(state, count, page) {
                Cleaning::Idle
            } else {
                cleaning
            }
        }
    }
}

// A list without its first count elements: the others move to the front, and the last stay in their places too.
pub fn shifted<T: Copy>(mut list: [T; 32], count: usize) -> [T; 32]
    requires { count ≤ 32 }
    ensures { result ≡ shifted list count }
{
    list.copy_within(count.., 0);
    list
}
