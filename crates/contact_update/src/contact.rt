// One contact's update over the lent graph: its own record, its bit, its distance, and nothing else.
ghost use Rattle.std.specs.Prelude.{◌≡◌, cond, ◌*◌, ◌<◌, length};
ghost use Rattle.data_structures.specs.BitVec.{marked};
ghost use Rattle.collider.specs.Views.{plain_settings};
ghost use Rattle.contact_update.specs.Contact.{ContactReady, OwnUpdated, ContactUpdated};

use crate::input::UpdateInput;
use crate::record::{Outcome, update_record};
use contact_range::places::contact_at;
use contact_types::contact_id::ContactId;
use data_structures::bit_vec::set;
use layout::contact::CONTACT_SIZE;
use layout::proposal::PROPOSAL_SIZE;
use words::store::store;

// The contact's record and its proposal are lent on, and no other's.
fn update_own(input: &UpdateInput<'_>, graph: &mut [u32], id: ContactId) -> Outcome
    requires { ContactReady input.now.colliders.now input.now.bodies.now input.now.proposals.now graph.old id.0 }
    ensures { OwnUpdated (plain_settings input.now.settings) input.now.colliders.now input.now.bodies.now input.now.proposals.now id.0 graph.old graph.new result }
{
    let at = contact_at(graph, id);
    let end = at + CONTACT_SIZE;
    let from = id.0 as usize * PROPOSAL_SIZE;
    let to = from + PROPOSAL_SIZE;
    let proposal = &input.proposals[from..to];
    let own = &mut graph[at..end];
    update_record(input.settings, input.colliders, input.bodies, proposal, own)
}

fn set_if(bits: &mut [u64], index: usize, bit: bool)
    requires { index < 64 * length bits.old }
    ensures { bits.new ≡ cond bit (marked bits.old index) bits.old }
{
    if bit {
        set(bits, index);
    }
}

// Answers whether the contact was recycled.
pub fn update_contact(
    input: &UpdateInput<'_>,
    graph: &mut [u32],
    bits: &mut [u64],
    distances: &mut [u32],
    id: ContactId,
) -> bool
    requires { ContactReady input.now.colliders.now input.now.bodies.now input.now.proposals.now graph.old id.0 × (id.0 < 64 * length bits.old) × (id.0 < length distances.old) }
    ensures { ContactUpdated (plain_settings input.now.settings) input.now.colliders.now input.now.bodies.now input.now.proposals.now id.0 graph.old graph.new bits.old bits.new distances.old distances.new result }
{
    let outcome = update_own(input, graph, id);
    set_if(bits, id.0 as usize, outcome.bit);
    store(distances, id.0 as usize, outcome.max_contact_distance);
    outcome.recycled
}
