// The store's answers in the digest.
use crate::numbers;
use promises::{Logged, Refusal, Stop};

// The digest with an answer: the value of an accepted call, or the number of a refusal.
pub fn answered(digest: u64, answer: Result<u64, Refusal>) -> u64 {
    match answer {
        Ok(value) => numbers::accepted(digest, value),
        Err(refusal) => numbers::note(digest, refusal.number()),
    }
}

// The digest with the answer of Begin, Describe or Clean step, which has no value.
pub fn done(digest: u64, answer: Result<(), Refusal>) -> u64 {
    answered(digest, answer.map(|()| 0))
}

// The digest with Log step's answer: the ticket that is settled, or 0.
pub fn logged(digest: u64, answer: Result<Logged, Refusal>) -> u64 {
    let ticket = answer.map(|logged| match logged {
        Logged::Stored => 0,
        Logged::Settled(ticket) => ticket,
    });
    answered(digest, ticket)
}

// The digest with Open's answer.
pub fn opened(digest: u64, answer: Result<u64, Stop>) -> u64 {
    answered(digest, answer.map_err(|stop| stop.refusal))
}
