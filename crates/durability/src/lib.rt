#![tactic(auto)]

// What a run of the store's calls and power cuts shows: no code, the crash theorem over the calls' own contracts.
