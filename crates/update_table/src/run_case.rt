// One case: its rows, and the update of its record where all are in range.
use crate::cache::fill_cache;
use crate::record::record_word;
use case_draws::bodies::fill_body;
use case_draws::colliders::fill_collider;
use case_draws::manifolds::fill_proposal;
use case_draws::numbers;
use case_draws::places::fill;
use case_draws::settings::fill_settings;
use collider::range::colliders_fit;
use collider::settings::load_settings;
use contact_range::range::contact_fits;
use contact_update::record::{Outcome, update_record};
use layout::body::BODIES_LENGTH;
use layout::collider::COLLIDERS_LENGTH;
use layout::contact::CONTACT_SIZE;
use layout::proposal::PROPOSAL_SIZE;
use layout::settings::SETTINGS_LENGTH;
use proposals::proposal::proposal_fits;

#[derive(Clone, Copy)]
pub struct Case {
    settings: [u32; SETTINGS_LENGTH],
    colliders: [u32; COLLIDERS_LENGTH],
    bodies: [u32; BODIES_LENGTH],
    proposal: [u32; PROPOSAL_SIZE],
    pub record: [u32; CONTACT_SIZE],
}

impl Case {
    pub fn new() -> Self {
        Case {
            settings: [0; SETTINGS_LENGTH],
            colliders: [0; COLLIDERS_LENGTH],
            bodies: [0; BODIES_LENGTH],
            proposal: [0; PROPOSAL_SIZE],
            record: [0; CONTACT_SIZE],
        }
    }

    pub fn draw(&mut self, case: u32) {
        fill_settings(&mut self.settings, case);
        for n in 0..2 {
            fill_collider(&mut self.colliders, n, case);
            fill_body(&mut self.bodies, n, case);
        }
        fill_proposal(&mut self.proposal, 0, case);
        fill(&mut self.record, 0, numbers::CONTACT_SIZE, |i| {
            record_word(case, i)
        });
        fill_cache(&self.colliders, &self.bodies, &mut self.record, case);
    }

    // None where a word is out of range.
    pub fn update(&mut self) -> Option<Outcome> {
        if colliders_fit(&self.colliders)
            && proposal_fits(&self.proposal, 0)
            && contact_fits(&self.record, 0)
        {
            return Some(update_record(
                load_settings(&self.settings),
                &self.colliders,
                &self.bodies,
                &self.proposal,
                &mut self.record,
            ));
        }
        None
    }
}
