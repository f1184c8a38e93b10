// A unique key for a pair of identifiers. From avian's src/data_structures/pair_key.rs.
#![tactic(auto, using(std::proofs::lemmas::Grind::common_steps, crate::specs::PairKeyLaws::key_is), unfolding(crate::specs::PairKey::ids_of))]

ghost use Rattle.std.specs.Prelude.{◌≡◌};
ghost use Rattle.data_structures.specs.PairKey.{key_of, ids_of};

#[derive(Clone, Copy, PartialEq, Eq, PartialOrd, Ord, Hash, Debug)]
pub struct PairKey(pub u64);

// What `get` gives.
#[derive(Clone, Copy, PartialEq, Eq, Debug)]
pub struct PairIds {
    pub lower: u32,
    pub higher: u32,
}

impl PairKey {
    // The key of two identifiers, in either order: the lower in the high half.
    pub fn new(id1: u32, id2: u32) -> Self
        ensures { result.0 ≡ key_of id1 id2 }
    {
        Self((id1.min(id2) as u64) << 32 | id1.max(id2) as u64)
    }

    // The two identifiers, in ascending order.
    pub fn get(self) -> PairIds
        ensures { result ≡ ids_of self.0 }
    {
        PairIds {
            lower: (self.0 >> 32) as u32,
            higher: (self.0 % (1 << 32)) as u32,
        }
    }
}
