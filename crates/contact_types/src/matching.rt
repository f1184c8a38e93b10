// When a new point matches an old one. From `match_contacts` of avian's contact_types/mod.rs; the loops over points and manifolds stand in `manifold_matching`.
#![tactic(auto, unfolding(rules::specs::Matching::by_number, rules::specs::Matching::by_place, rules::specs::Matching::anchors_match))]

ghost use Rattle.std.specs.Prelude.{◌≡◌, ◌&&◌};
ghost use Rattle.rules.specs.Matching.{by_number, feature_rule, unknown, close, anchors_match, matches};
ghost use Rattle.contact_types.specs.Views.{point_of};

use crate::contact_point::ContactPoint;
use crate::feature_id::PackedFeatureId;
use math::vec::Vec3;

// By number, straight or crossed: the bodies may have changed places. An unknown feature equals another.
fn same_features(new: ContactPoint, old: ContactPoint) -> bool
    ensures { result ≡ by_number (point_of new) (point_of old) }
{
    let (new1, new2) = (new.feature_id1, new.feature_id2);
    let olds = (old.feature_id1, old.feature_id2);
    (new1, new2) == olds || (new2, new1) == olds
}

// A new feature is unknown.
fn has_unknown(new: ContactPoint) -> bool
    ensures { result ≡ unknown (point_of new) }
{
    new.feature_id1 == PackedFeatureId::UNKNOWN || new.feature_id2 == PackedFeatureId::UNKNOWN
}

// By place, the features of a new point with an unknown one are not compared.
fn features_match(new: ContactPoint, old: ContactPoint, by_place: bool) -> bool
    ensures { result ≡ feature_rule by_place (point_of new) (point_of old) }
{
    if by_place {
        return !has_unknown(new) && same_features(new, old);
    }
    same_features(new, old)
}

// a1 and b1, and a2 and b2.
fn close(a1: Vec3, a2: Vec3, b1: Vec3, b2: Vec3, threshold_squared: f32) -> bool
    ensures { result ≡ (close threshold_squared a1 b1 && close threshold_squared a2 b2) }
{
    a1.distance_squared(b1) < threshold_squared && a2.distance_squared(b2) < threshold_squared
}

// Straight only if a new feature is unknown, crossed always.
fn close_anchors(new: ContactPoint, old: ContactPoint, threshold_squared: f32) -> bool
    ensures { result ≡ anchors_match threshold_squared (point_of new) (point_of old) }
{
    let (new1, new2) = (new.anchor1, new.anchor2);
    let (old1, old2) = (old.anchor1, old.anchor2);
    let crossed = close(new1, new2, old2, old1, threshold_squared);
    if has_unknown(new) {
        return close(new1, new2, old1, old2, threshold_squared) || crossed;
    }
    crossed
}

// By features, else by anchors.
pub fn matches(new: ContactPoint, old: ContactPoint, by_place: bool, threshold_squared: f32) -> bool
    ensures { result ≡ matches (feature_rule by_place) threshold_squared (point_of new) (point_of old) }
{
    features_match(new, old, by_place) || close_anchors(new, old, threshold_squared)
}
