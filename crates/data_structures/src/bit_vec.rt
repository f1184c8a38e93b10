// Bits in a lent row of 64-bit words. From avian's src/data_structures/bit_vec.rs.
#![tactic(auto, unfolding(crate::specs::BitVec::blocks_of, crate::specs::BitVec::marked))]

ghost use Rattle.std.specs.Prelude.{◌≡◌, not, ◌+◌, ◌*◌, ◌/◌, ◌%◌, ◌^◌, ◌≤◌, ◌<◌, length};
ghost use Rattle.data_structures.specs.BitVec.{blocks_of, bit_at, cleared, marked, joined, word_bits, Written, Visited};

// How many words hold that many bits.
pub fn blocks(bits: usize) -> usize
    ensures { result ≡ blocks_of bits }
{
    bits.div_ceil(64)
}

// Every word 0.
pub fn clear(bits: &mut [u64])
    ensures { bits.new ≡ cleared bits.old }
{
    bits.fill(0);
}

// The word that a bit stands in, and its mask there.
#[derive(Clone, Copy)]
struct Place {
    block: usize,
    mask: u64,
}

fn place_of(index: usize) -> Place
    ensures block { result.block ≡ index / 64 }
    ensures mask { result.mask ≡ 2 ^ (index % 64) }
{
    Place {
        block: index / 64,
        mask: 1u64 << (index % 64),
    }
}

// Sets one bit.
pub fn set(bits: &mut [u64], index: usize)
    requires { index < 64 * length bits.old }
    ensures { bits.new ≡ marked bits.old index }
{
    let Place { block, mask } = place_of(index);
    bits[block] |= mask;
}

// One bit: false past the end.
pub fn get(bits: &[u64], index: usize) -> bool
    ensures { result ≡ bit_at bits.now index }
{
    let Place { block, mask } = place_of(index);
    if block >= bits.len() {
        return false;
    }
    (bits[block] & mask) != 0
}

// Sets one bit, and answers whether it was not set before, as a `HashSet` does.
pub fn insert(bits: &mut [u64], index: usize) -> bool
    requires { index < 64 * length bits.old }
    ensures stored { bits.new ≡ marked bits.old index }
    ensures fresh { result ≡ not (bit_at bits.old index) }
{
    let fresh = !get(bits, index);
    set(bits, index);
    fresh
}

// Joins other into bits, word by word: by number, since a `zip` with `iter_mut` tells a proof nothing of the words.
pub fn or(bits: &mut [u64], other: &[u64])
    requires { length other.now ≡ length bits.old }
    ensures { bits.new ≡ joined bits.old other.now }
{
    for k in 0..bits.len() {
        bits[k] |= other[k];
    }
}

// The set bits of one word, numbered from base, written to ids from place at. The result is the place after the last.
fn ones_of_word(word: u64, base: u32, ids: &mut [u32], at: usize) -> usize
    requires { (base + 64 ≤ 2 ^ 32) × (at + 64 ≤ length ids.old) }
    ensures { Written ids.old at (word_bits 64 base word) ids.new result }
{
    let mut word = word;
    let mut n = at;
    while word != 0 {
        let next = word.trailing_zeros();
        ids[n] = base + next;
        n += 1;
        word &= word - 1;
    }
    n
}

// The numbers of the set bits, ascending, written to ids from its start. The result is how many there are.
pub fn ones(bits: &[u64], ids: &mut [u32]) -> usize
    requires { (64 * length bits.now ≤ length ids.old) × (64 * length bits.now ≤ 2 ^ 32) }
    ensures { Visited bits.now ids.old ids.new result }
{
    let mut n = 0;
    for (i, word) in bits.iter().enumerate() {
        n = ones_of_word(*word, (64 * i) as u32, ids, n);
    }
    n
}
