// A worker's contacts, one after another.
ghost use Rattle.collider.specs.Views.{plain_settings};
ghost use Rattle.update_pass.specs.Share.{ShareReady, ShareTaken};

use contact_range::places::id_at;
use contact_update::contact::update_contact;
use contact_update::input::UpdateInput;
use layout::shares::{SHARES_COUNTS, SHARES_ENTRIES};
use shares::range::start_of;
use words::load::load;
use words::row::mark_word;

// Sets bits in the worker's own part, and answers how many contacts were recycled.
pub fn update_share(
    input: &UpdateInput<'_>,
    shares: &[u32],
    graph: &mut [u32],
    bits: &mut [u64],
    distances: &mut [u32],
    worker: usize,
) -> u32
    requires { ShareReady (plain_settings input.now.settings) input.now.colliders.now input.now.bodies.now input.now.proposals.now shares.now worker graph.old bits.old distances.old }
    ensures { ShareTaken (plain_settings input.now.settings) input.now.colliders.now input.now.bodies.now input.now.proposals.now shares.now worker graph.old bits.old distances.old graph.new bits.new distances.new result }
{
    let from = SHARES_ENTRIES + start_of(shares, worker);
    let count = load::<usize>(shares, SHARES_COUNTS + worker);
    let mut recycled = 0;
    for k in 0..count {
        let id = id_at(shares, from + k);
        let again = update_contact(input, graph, bits, distances, id);
        recycled += mark_word(again);
    }
    recycled
}
