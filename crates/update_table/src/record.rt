// A case's record of the contact, all but the cache's words.
use case_draws::draws::{all_but_one_in, draw, one_in, past, slot};
use case_draws::manifolds::manifold_word;
use case_draws::numbers::{
    CONTACT_BODY1, CONTACT_BODY2, CONTACT_CACHE, CONTACT_COLLIDER1, CONTACT_COLLIDER2,
    CONTACT_COUNT_CHANGE, CONTACT_EDGE_FLAGS, CONTACT_FIRST_MANIFOLD, CONTACT_MANIFOLDS,
    CONTACT_PAIR_INDEX, CONTACT_SPECULATIVE_DISTANCE, MANIFOLD_SIZE, MANIFOLDS, MOST_CONTACTS,
    PAIR_DISJOINT_AABB, PAIR_MODIFY_CONTACTS, PAIR_TOUCHING,
};
use case_draws::speculative::speculative_word;
use layout::limits::{BODIES, COLLIDERS};

// The record names collider 1 first.
pub fn swapped(owner: u32) -> bool {
    draw(owner, 60) % 8 == 0
}

// The last two colliders are absent.
const ABSENT: u32 = COLLIDERS - 2;

// Collider 0 or 1, at times one that is absent.
fn collider_number(owner: u32, i: u32) -> u32 {
    let n = past(i, CONTACT_COLLIDER1);
    if draw(owner, i) % 80 == 0 {
        return slot(ABSENT, n);
    }
    if swapped(owner) { past(1, n) } else { n }
}

// A mark and a number: behind a mark of 0 any word.
fn named_word(owner: u32, at: u32, j: u32) -> u32 {
    let mark = one_in(draw(owner, at), 2);
    let d = draw(owner, slot(at, 1));
    match j {
        0 => mark,
        _ => if mark == 0 { d } else { d % BODIES },
    }
}

const MANIFOLD_COUNTS: u32 = MANIFOLDS + 1;

// As many manifolds more or fewer as there can be.
fn count_change(owner: u32) -> u32 {
    let d = draw(owner, CONTACT_COUNT_CHANGE);
    if d % 2 == 0 {
        d / 2 % MANIFOLD_COUNTS
    } else {
        u32::MAX - d / 2 % MANIFOLDS
    }
}

fn flag_word(owner: u32, i: u32) -> u32 {
    match i {
        PAIR_TOUCHING => all_but_one_in(draw(owner, i), 3),
        PAIR_DISJOINT_AABB => one_in(draw(owner, i), 16),
        PAIR_MODIFY_CONTACTS => one_in(draw(owner, i), 3),
        _ => one_in(draw(owner, i), 2),
    }
}

fn head_word(owner: u32, i: u32) -> u32 {
    match i {
        CONTACT_COLLIDER1 | CONTACT_COLLIDER2 => collider_number(owner, i),
        CONTACT_BODY1..CONTACT_BODY2 => named_word(owner, CONTACT_BODY1, past(i, CONTACT_BODY1)),
        CONTACT_BODY2..CONTACT_PAIR_INDEX => named_word(
            owner,
            CONTACT_BODY2,
            past(i, CONTACT_BODY2),
        ),
        CONTACT_PAIR_INDEX => draw(owner, i) % MOST_CONTACTS,
        CONTACT_EDGE_FLAGS..CONTACT_COUNT_CHANGE => flag_word(owner, i),
        CONTACT_COUNT_CHANGE => count_change(owner),
        CONTACT_SPECULATIVE_DISTANCE => speculative_word(draw(owner, i)),
        CONTACT_CACHE => all_but_one_in(draw(owner, i), 10),
        CONTACT_MANIFOLDS => draw(owner, i) % MANIFOLD_COUNTS,
        _ => 0,
    }
}

pub fn record_word(case: u32, i: u32) -> u32 {
    let owner = draw(case, 40);
    if i < CONTACT_FIRST_MANIFOLD {
        return head_word(owner, i);
    }
    let k = past(i, CONTACT_FIRST_MANIFOLD);
    manifold_word(
        case,
        draw(owner, slot(100, k / MANIFOLD_SIZE)),
        k % MANIFOLD_SIZE,
    )
}
