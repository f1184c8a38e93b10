// The workers' parts joined, and the contacts whose bit stands, ascending.
ghost use Rattle.std.specs.Prelude.{◌≡◌, ◌*◌, ◌≤◌, length};
ghost use Rattle.manifold_records.specs.Written.{zeros};
ghost use Rattle.data_structures.specs.BitVec.{Visited};
ghost use Rattle.layout.specs.Bits.{most_blocks};
ghost use Rattle.rules.specs.Limits.{most_contacts, most_workers};
ghost use Rattle.update_pass.specs.Share.{joined_parts};

use data_structures::bit_vec::{ones, or};
use layout::bits::MOST_BLOCKS;
use layout::limits::MOST_WORKERS;

// The parts are not written back.
fn join(bits: &[u64], joined: &mut [u64], count: usize)
    requires { (length bits.now ≡ most_workers * count) × (count ≤ most_blocks) × (joined.old ≡ zeros count) }
    ensures { joined.new ≡ joined_parts count bits.now most_workers }
{
    for w in 0..MOST_WORKERS {
        let from = w * count;
        let to = from + count;
        let part = &bits[from..to];
        or(joined, part);
    }
}

// Written to ids from its start. Answers how many there are.
pub fn standing(bits: &[u64], count: usize, ids: &mut [u32]) -> usize
    requires { (length bits.now ≡ most_workers * count) × (count ≤ most_blocks) × (length ids.old ≡ most_contacts) }
    ensures { Visited (joined_parts count bits.now most_workers) ids.old ids.new result }
{
    let mut words = [0u64; MOST_BLOCKS];
    let joined = &mut words[0..count];
    join(bits, joined, count);
    ones(joined, ids)
}
