// The store's side of the benchmark, for a C program to call: bench/workloads.h says call by call what each workload does. Each is proved
// to be safe and to end on any areas. It promises no more: the benchmark holds its answers, and the log and home that it leaves, to C's.
#![tactic(auto)]

mod calling;
mod commits;
mod numbers;
mod reading;

// COMMIT: transactions of two updates, each cleaned at once.
#[unsafe(no_mangle)]
pub extern "C" fn pegridol_commits(
    log: &mut [u8],
    home: &mut [u8],
    frames: &mut [u8],
    staging: &mut [u8],
    count: u64,
) -> u64 {
    commits::commits(log, home, frames, staging, count)
}

// COMMIT_LATE: the same, cleaned once Begin is refused as full.
#[unsafe(no_mangle)]
pub extern "C" fn pegridol_late_commits(
    log: &mut [u8],
    home: &mut [u8],
    frames: &mut [u8],
    staging: &mut [u8],
    count: u64,
) -> u64 {
    commits::late_commits(log, home, frames, staging, count)
}

// OPEN_FULL, OPEN_8, OPEN_64 and OPEN_1024: Open, again and again.
#[unsafe(no_mangle)]
pub extern "C" fn pegridol_opens(
    log: &mut [u8],
    home: &mut [u8],
    frames: &mut [u8],
    staging: &mut [u8],
    count: u64,
) -> u64 {
    reading::opens(log, home, frames, staging, count)
}

// READ: pages in no order.
#[unsafe(no_mangle)]
pub extern "C" fn pegridol_reads(
    log: &mut [u8],
    home: &mut [u8],
    frames: &mut [u8],
    staging: &mut [u8],
    count: u64,
) -> u64 {
    reading::reads(log, home, frames, staging, count)
}

// BEGIN_REFUSED: Begin where all frames are in use.
#[unsafe(no_mangle)]
pub extern "C" fn pegridol_refused_begins(
    log: &mut [u8],
    home: &mut [u8],
    frames: &mut [u8],
    staging: &mut [u8],
    count: u64,
) -> u64 {
    commits::refused_begins(log, home, frames, staging, count)
}

// CHECK: the check of each slot's bytes.
#[unsafe(no_mangle)]
pub extern "C" fn pegridol_checks(
    log: &mut [u8],
    home: &mut [u8],
    frames: &mut [u8],
    staging: &mut [u8],
    count: u64,
) -> u64 {
    reading::checks(log, count)
}
