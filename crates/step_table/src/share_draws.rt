// The workers' shares of a step: the listed pairs in any order, at times with a fault.
ghost use Rattle.std.specs.Prelude.{◌≤◌};
ghost use Rattle.rules.specs.Limits.{most_workers};

use crate::choices::{NO_NUMBER, below, choice, over};
use crate::graph::inactive_id;
use case_draws::draws::{past, slot};
use case_draws::graph::{listed, listed_id};
use case_draws::numbers::{
    GRAPH_CAPACITY, MOST_WORKERS, SHARES_COUNTS, SHARES_ENTRIES, SHARES_WORKERS,
};
use case_draws::places::{exchange, fill, put, raise, word};

fn shuffle(shares: &mut [u32], count: u32, call: u32) {
    for q in (1..count).rev() {
        let other = below(choice(call, slot(400, q)), slot(q, 1));
        exchange(shares, slot(SHARES_ENTRIES, q), slot(SHARES_ENTRIES, other));
    }
}

fn workers(call: u32) -> u32
    ensures { (1 ≤ result) × (result ≤ most_workers) }
{
    1 + choice(call, 67) % MOST_WORKERS
}

// The place of the number of the worker who has the q-th pair.
fn worker_place(call: u32, q: u32) -> u32 {
    slot(SHARES_COUNTS, choice(call, slot(500, q)) % workers(call))
}

fn fill_counts(shares: &mut [u32], count: u32, call: u32) {
    let workers = workers(call);
    put(shares, SHARES_WORKERS, workers);
    fill(shares, SHARES_COUNTS, workers, |_| 0);
    for q in 0..count {
        raise(shares, worker_place(call, q), 1);
    }
}

// The places before the first count, and before the first id.
const BEFORE_COUNTS: u32 = SHARES_COUNTS - 1;

const BEFORE_ENTRIES: u32 = SHARES_ENTRIES - 1;

// One id more for the last worker.
fn append(shares: &mut [u32], count: u32, capacity: u32, id: u32, call: u32) {
    raise(shares, slot(BEFORE_COUNTS, workers(call)), 1);
    if count < capacity {
        put(shares, slot(SHARES_ENTRIES, count), id);
    }
}

// Nothing but the number of workers is wrong.
fn too_many_workers(shares: &mut [u32], x: u32, call: u32) {
    put(shares, SHARES_WORKERS, over(MOST_WORKERS, x));
    let unused = slot(SHARES_COUNTS, workers(call));
    fill(shares, unused, past(SHARES_ENTRIES, unused), |_| 0);
}

// No workers, too many; where some ids are listed one twice in another's place, one more, one not counted, one that is not active;
// one more that is not active, a count out of all bounds.
fn spoil(shares: &mut [u32], graph: &[u32], call: u32) {
    let d = choice(call, 68);
    let count = listed(graph);
    let capacity = word(graph, GRAPH_CAPACITY);
    let first = word(shares, SHARES_ENTRIES);
    let other = inactive_id(graph, call);
    match d % 48 {
        0 => put(shares, SHARES_WORKERS, 0),
        1 => too_many_workers(shares, d / 48, call),
        2..=5 if count == 0 => {}
        2 => put(
            shares,
            SHARES_ENTRIES,
            word(shares, slot(BEFORE_ENTRIES, count)),
        ),
        3 => append(shares, count, capacity, first, call),
        4 => {
            let last = worker_place(call, past(count, 1));
            put(shares, last, past(word(shares, last), 1));
        }
        5 => put(shares, SHARES_ENTRIES, other),
        6 => append(shares, count, capacity, other, call),
        7 => put(shares, SHARES_COUNTS, NO_NUMBER),
        _ => {}
    }
}

pub fn fill_shares(shares: &mut [u32], graph: &[u32], call: u32) {
    let count = listed(graph);
    let length = slot(SHARES_ENTRIES, word(graph, GRAPH_CAPACITY));
    fill(shares, 0, length, |i| choice(call, slot(600, i)));
    fill(shares, SHARES_ENTRIES, count, |q| listed_id(graph, q));
    shuffle(shares, count, call);
    fill_counts(shares, count, call);
    spoil(shares, graph, call);
}
