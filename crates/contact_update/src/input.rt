// What a contact's update reads, beside its record in the graph.
use collider::settings::Settings;

// The settings are loaded once for all contacts; the rows are lent whole.
// Clauses name the rows apart: their definitions take the rows themselves, and `step` cites those for the rows as C lends them.
#[derive(Clone, Copy)]
pub struct UpdateInput<'a> {
    pub settings: Settings,
    pub colliders: &'a [u32],
    pub bodies: &'a [u32],
    pub proposals: &'a [u32],
}
