// The workers' shares: their number, a count for each worker, the entries.
use crate::limits::MOST_WORKERS;

pub const SHARES_WORKERS: usize = 0;

pub const SHARES_COUNTS: usize = 1;

pub const SHARES_ENTRIES: usize = SHARES_COUNTS + MOST_WORKERS;
