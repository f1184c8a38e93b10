// What a step is lent to read, with room for the largest capacity: drawn at a list's start, and what of it is drawn anew before a step.
use crate::bodies::move_bodies;
use crate::choices::{below, choice};
use crate::proposal_draws::fill_proposals;
use crate::share_draws::fill_shares;
use case_draws::bodies::fill_body;
use case_draws::colliders::fill_collider;
use case_draws::settings::fill_settings;
use layout::body::BODIES_LENGTH;
use layout::collider::COLLIDERS_LENGTH;
use layout::proposal::PROPOSAL_SIZE;
use layout::settings::SETTINGS_LENGTH;
use layout::shares::SHARES_ENTRIES;

// Of a list.
pub const LARGEST: u32 = 64;

pub const LARGEST_LENGTH: usize = LARGEST as usize;

const SHARES_LENGTH: usize = SHARES_ENTRIES + LARGEST_LENGTH;

const PROPOSALS_LENGTH: usize = PROPOSAL_SIZE * LARGEST_LENGTH;

#[derive(Clone, Copy)]
pub struct Given {
    pub settings: [u32; SETTINGS_LENGTH],
    pub colliders: [u32; COLLIDERS_LENGTH],
    pub bodies: [u32; BODIES_LENGTH],
    pub proposals: [u32; PROPOSALS_LENGTH],
    pub shares: [u32; SHARES_LENGTH],
}

impl Given {
    pub fn new() -> Self {
        Given {
            settings: [0; SETTINGS_LENGTH],
            colliders: [0; COLLIDERS_LENGTH],
            bodies: [0; BODIES_LENGTH],
            proposals: [0; PROPOSALS_LENGTH],
            shares: [0; SHARES_LENGTH],
        }
    }

    // With so many colliders, and bodies. Where it stands: the rows are large.
    pub fn start(&mut self, count: u32, key: u32) {
        fill_settings(&mut self.settings, key);
        self.fill_all(count, key);
    }

    // A collider and its body.
    fn fill(&mut self, n: u32, key: u32) {
        fill_collider(&mut self.colliders, n, key);
        fill_body(&mut self.bodies, n, key);
    }

    fn fill_all(&mut self, count: u32, key: u32) {
        for n in 0..count {
            self.fill(n, key);
        }
    }

    // All anew, one, one collider, one body, all bodies moved, or nothing.
    fn change_things(&mut self, count: u32, call: u32) {
        let one = below(choice(call, 63), count);
        match choice(call, 62) % 16 {
            0 => self.fill_all(count, call),
            1..=3 => self.fill(one, call),
            4 | 5 => fill_collider(&mut self.colliders, one, call),
            6 => fill_body(&mut self.bodies, one, call),
            7..=12 => move_bodies(&mut self.bodies, count, one, call),
            _ => {}
        }
    }

    // Before a step.
    pub fn change(&mut self, graph: &[u32], count: u32, call: u32) {
        if choice(call, 61) % 8 == 0 {
            fill_settings(&mut self.settings, call);
        }
        self.change_things(count, call);
        fill_proposals(&mut self.proposals, graph, call);
        fill_shares(&mut self.shares, graph, call);
    }
}
