// The shares of three workers: the listed pairs in turn, worker by worker.
use case_draws::draws::slot;
use case_draws::graph::{listed, listed_id};
use case_draws::numbers::{SHARES_COUNTS, SHARES_ENTRIES, SHARES_WORKERS};
use case_draws::places::{fill, put};

// How many of the listed pairs worker w has.
fn own(listed: u32, w: u32) -> u32 {
    match w {
        0 => slot(listed, 2) / 3,
        1 => slot(listed, 1) / 3,
        _ => listed / 3,
    }
}

// How many the workers before it have.
fn before(listed: u32, w: u32) -> u32 {
    match w {
        0 => 0,
        1 => own(listed, 0),
        _ => slot(own(listed, 0), own(listed, 1)),
    }
}

// Pair p is the (p / 3)-th of worker p % 3.
fn deal(shares: &mut [u32], graph: &[u32], listed: u32) {
    for p in 0..listed {
        let place = slot(before(listed, p % 3), p / 3);
        put(shares, slot(SHARES_ENTRIES, place), listed_id(graph, p));
    }
}

pub fn fill_shares(shares: &mut [u32], graph: &[u32]) {
    let listed = listed(graph);
    put(shares, SHARES_WORKERS, 3);
    fill(shares, SHARES_COUNTS, 3, |w| own(listed, w));
    deal(shares, graph, listed);
}
