// The choices that the lists are made of, beside the draws of what is in the rows.
ghost use Rattle.std.specs.Prelude.{◌≤◌};

use crate::given::LARGEST;
use case_draws::draws::{draw, slot};

// Past every limit, so that a call that is given it is refused.
pub const NO_NUMBER: u32 = u32::MAX;

pub fn choice(key: u32, slot: u32) -> u32 {
    draw(draw(key, slot), 0)
}

// One of the n numbers below n; 0 where there is none.
pub fn below(d: u32, n: u32) -> u32 {
    if n == 0 { 0 } else { d % n }
}

// A number over a limit.
pub fn over(limit: u32, x: u32) -> u32 {
    if x % 2 == 0 {
        slot(limit, 1)
    } else {
        NO_NUMBER
    }
}

pub fn list_key(l: u32) -> u32 {
    choice(l, 2)
}

// The largest in one list of ten, else 1 to 8.
pub fn capacity(list: u32) -> u32
    ensures { result ≤ 64 }
{
    let d = choice(list, 60);
    if d % 10 == 0 { LARGEST } else { 1 + d / 10 % 8 }
}

// How many colliders, and bodies, are drawn.
pub fn collider_count(list: u32, capacity: u32) -> u32 {
    if capacity == LARGEST {
        6
    } else {
        4 + choice(list, 61) % 3
    }
}

pub fn call_count(list: u32) -> u32 {
    12 + choice(list, 62) % 19
}

pub fn call_key(list: u32, n: u32) -> u32 {
    choice(list, slot(1000, n))
}

#[derive(Clone, Copy)]
pub enum Kind {
    Addition,
    Step,
    Impulses,
}

// A list begins with additions.
fn first_additions(capacity: u32) -> u32 {
    if capacity == LARGEST { 10 } else { 2 }
}

pub fn kind_of(call: u32, n: u32, capacity: u32) -> Kind {
    if n < first_additions(capacity) {
        return Kind::Addition;
    }
    match choice(call, 60) % 16 {
        0..=4 => Kind::Addition,
        5..=13 => Kind::Step,
        _ => Kind::Impulses,
    }
}
