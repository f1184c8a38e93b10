// Data structures that hold no entity: the key of a pair, and bits in lent words. From avian's src/data_structures.
#![tactic(auto)]

pub mod bit_vec;
pub mod pair_key;
