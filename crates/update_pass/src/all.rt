// All workers in turn, each with its own part of the bit words.
ghost use Rattle.collider.specs.Views.{plain_settings};
ghost use Rattle.update_pass.specs.Share.{SharesReady, AllTaken};

use crate::share::update_share;
use contact_update::input::UpdateInput;
use data_structures::bit_vec::{blocks, clear};
use layout::graph::GRAPH_CAPACITY;
use layout::limits::MOST_WORKERS;
use layout::shares::SHARES_WORKERS;
use manifold_records::zeros::store_zeros;
use words::load::load;

// Every part is cleared first, and every distance. Answers how many contacts were recycled.
pub fn update_all(
    input: &UpdateInput<'_>,
    shares: &[u32],
    graph: &mut [u32],
    bits: &mut [u64],
    distances: &mut [u32],
) -> u32
    requires { SharesReady (plain_settings input.now.settings) input.now.colliders.now input.now.bodies.now input.now.proposals.now shares.now graph.old bits.old distances.old }
    ensures { AllTaken (plain_settings input.now.settings) input.now.colliders.now input.now.bodies.now input.now.proposals.now shares.now graph.old graph.new bits.new distances.new result }
{
    let capacity = load::<usize>(graph, GRAPH_CAPACITY);
    let count = blocks(capacity);
    let workers = load::<usize>(shares, SHARES_WORKERS);
    let end = MOST_WORKERS * count;
    let parts = &mut bits[0..end];
    clear(parts);
    store_zeros(distances, 0, capacity);
    let mut recycled = 0;
    for w in 0..workers {
        let from = w * count;
        let to = from + count;
        let own = &mut bits[from..to];
        recycled += update_share(input, shares, graph, own, distances, w);
    }
    recycled
}
