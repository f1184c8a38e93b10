// The nine shares of the listed contacts: one worker in the list's order and in reverse, the most workers in the list's order and in
// reverse, and five with any number of workers in any order.
ghost use Rattle.std.specs.Prelude.{◌≤◌, ◌<◌};
ghost use Rattle.rules.specs.Limits.{most_workers};

use crate::draws::draw;
use crate::places::{BITS_LENGTH, SHARES_LENGTH};
use case_draws::draws::{past, slot};
use case_draws::graph::{listed, listed_id};
use case_draws::numbers::{MOST_WORKERS, SHARES_COUNTS, SHARES_ENTRIES, SHARES_WORKERS};
use case_draws::places::{exchange, fill, put, raise};

pub const SHARES: u32 = 9;

// Any order is drawn by a key.
#[derive(Clone, Copy, Debug, PartialEq, Eq)]
enum Order {
    Listed,
    Reversed,
    Any(u32),
}

fn order_of(share: u32, key: u32) -> Order {
    match share {
        0 | 2 => Order::Listed,
        1 | 3 => Order::Reversed,
        _ => Order::Any(key),
    }
}

fn workers(share: u32, key: u32) -> u32
    ensures { (0 < result) × (result ≤ most_workers) }
{
    match share {
        0 | 1 => 1,
        2 | 3 => MOST_WORKERS,
        _ => 1 + draw(key, 1) % MOST_WORKERS,
    }
}

fn mix(shares: &mut [u32], count: u32, key: u32) {
    for p in 1..count {
        let other = draw(key, slot(40, p)) % (p + 1);
        exchange(shares, slot(SHARES_ENTRIES, p), slot(SHARES_ENTRIES, other));
    }
}

fn list(shares: &mut [u32], graph: &[u32], order: Order) {
    let count = listed(graph);
    let last = past(count, 1);
    fill(shares, SHARES_ENTRIES, count, |p| {
        let reversed = order == Order::Reversed;
        listed_id(graph, if reversed { past(last, p) } else { p })
    });
    if let Order::Any(key) = order {
        mix(shares, count, key);
    }
}

// Each contact to a worker: one after the other where the order is not any.
fn deal(shares: &mut [u32], count: u32, workers: u32, order: Order)
    requires { 0 < workers }
{
    for p in 0..count {
        let w = match order {
            Order::Any(key) => draw(key, slot(70, p)),
            Order::Listed | Order::Reversed => p,
        };
        raise(shares, slot(SHARES_COUNTS, w % workers), 1);
    }
}

// Any words, also where none are read, but for the share.
pub fn shares_of(graph: &[u32], share: u32, key: u32) -> [u32; SHARES_LENGTH] {
    let mut shares = [0; SHARES_LENGTH];
    let order = order_of(share, key);
    let count = workers(share, key);
    fill(&mut shares, 0, SHARES_LENGTH as u32, |i| {
        draw(key, slot(10, i))
    });
    list(&mut shares, graph, order);
    put(&mut shares, SHARES_WORKERS, count);
    fill(&mut shares, SHARES_COUNTS, count, |_| 0);
    deal(&mut shares, listed(graph), count, order);
    shares
}

// Rubbish in the words that the workers set bits in.
pub fn rubbish(key: u32) -> [u64; BITS_LENGTH] {
    let a = u64::from(draw(key, 0));
    let b = u64::from(draw(key, 1));
    let c = u64::from(draw(key, 2));
    [
        a * 0x1_0000_0001,
        b * 0x1_0000_0001,
        c,
        a,
        c * 0x1_0000_0001,
        b,
        a * 0x1_0001,
        b * 0x1_0001,
    ]
}
