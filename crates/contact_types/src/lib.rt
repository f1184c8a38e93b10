// Contact ids, features, points by value and the recycling cache; when points match, and pruning. From avian's collision/contact_types.
#![tactic(auto)]

pub mod contact_id;
pub mod contact_manifold;
pub mod contact_point;
pub mod feature_id;
pub mod matching;
pub mod prune;
pub mod pruning;
pub mod refusal;
