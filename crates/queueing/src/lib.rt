// The calls that store no block, in parts: what each is refused with, and where an accepted one finds a free area or a page's frame.
// The calls themselves, Format, Begin, Describe, End, Read and Settled, stand in the store.
#![tactic(auto)]

pub mod deciding;
pub mod finding;
