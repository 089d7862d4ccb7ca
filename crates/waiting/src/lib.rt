// Begin for a feed that may have to wait: where Begin is refused as full, what waits is stored, what is dirty is cleaned, and Begin is
// called again. With nothing open and sequences left it is then accepted, after W Log steps and at most 3 F Clean steps. Built on the
// store's calls alone, as a program of the desk would be.
#![tactic(auto)]

ghost use Rattle.waiting.specs.Waiting.{world_of, LogsAll, CleansAll, BeginsWaiting};

use promises::{Refusal, State};

// Where steps of one kind ended: the state, the refusal that ended them, and how many were accepted before it.
#[derive(Clone, Copy)]
pub struct Stopped {
    pub state: State,
    pub refusal: Refusal,
    pub count: u64,
}

// What a Begin that waits hands back: the state, the answer, and how many Log steps and Clean steps were accepted on the way.
#[derive(Clone, Copy)]
pub struct Waited {
    pub state: State,
    pub answer: Result<(), Refusal>,
    pub logged: u64,
    pub cleaned: u64,
}

// Log steps until one is refused.
pub fn log_all(
    state: State,
    log: &mut [u8],
    home: &[u8],
    frames: &mut [u8],
    staging: &[u8],
) -> Stopped
    ensures { LogsAll state log.old home.now frames.old staging.now result log.new frames.new }
{
    let mut state = state;
    let mut count = 0;
    'steps: loop {
        let outcome = store::log_step(state, log, home, frames, staging);
        state = outcome.state;
        if let Err(refusal) = outcome.answer {
            return Stopped {
                state,
                refusal,
                count,
            };
        }
        count += 1;
    }
}

// Clean steps until one is refused. It is written out beside log_all: a closure for the call would take the areas that only one of the two
// changes, and its contract would be as long as either.
pub fn clean_all(state: State, log: &mut [u8], home: &mut [u8], frames: &[u8]) -> Stopped
    ensures { CleansAll state log.old home.old frames.now result log.new home.new }
{
    let mut state = state;
    let mut count = 0;
    'steps: loop {
        let outcome = store::clean_step(state, log, home, frames);
        state = outcome.state;
        if let Err(refusal) = outcome.answer {
            return Stopped {
                state,
                refusal,
                count,
            };
        }
        count += 1;
    }
}

// Begin, and where it is refused as full: Log steps until nothing is queued, Clean steps until none is dirty, and Begin again. A step
// that is refused for another reason ends it, with its refusal as the answer. The tickets that Log steps report as settled are not handed
// on: Settled answers for them afterwards.
pub fn begin(
    state: State,
    log: &mut [u8],
    home: &mut [u8],
    frames: &mut [u8],
    staging: &[u8],
    u: usize,
) -> Waited
    ensures { BeginsWaiting (world_of state log.old home.old frames.old staging.now) u result (world_of result.state log.new home.new frames.new staging.now) }
{
    let first = store::begin(state, u);
    if first.answer != Err(Refusal::Full) {
        return Waited {
            state: first.state,
            answer: first.answer,
            logged: 0,
            cleaned: 0,
        };
    }
    let logs = log_all(first.state, log, home, frames, staging);
    if logs.refusal != Refusal::NothingToDo {
        return Waited {
            state: logs.state,
            answer: Err(logs.refusal),
            logged: logs.count,
            cleaned: 0,
        };
    }
    let cleans = clean_all(logs.state, log, home, frames);
    if cleans.refusal != Refusal::NothingToDo {
        return Waited {
            state: cleans.state,
            answer: Err(cleans.refusal),
            logged: logs.count,
            cleaned: cleans.count,
        };
    }
    let last = store::begin(cleans.state, u);
    Waited {
        state: last.state,
        answer: last.answer,
        logged: logs.count,
        cleaned: cleans.count,
    }
}
