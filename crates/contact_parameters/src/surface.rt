// What the points of a pair share: friction, restitution, margins and the distance without them. Rules 7 and 8.
ghost use Rattle.std.specs.Prelude.{◌≡◌};
ghost use Rattle.rules.specs.Surface.{surface_of};
ghost use Rattle.collider.specs.Views.{plain_settings, plain_collider, plain_side};
ghost use Rattle.contact_parameters.specs.Views.{plain_surface};

use crate::distance::effective_speculative;
use crate::pair::OverlappingPair;
use collider::settings::Settings;
use collider::surface::{combine, friction_of, margin_of, restitution_of};

#[derive(Clone, Copy)]
pub struct Surface {
    pub friction: f32,
    pub restitution: f32,
    // The two margins' sum.
    pub margins: f32,
    // Rule 8's distance, without margins: points are held against it.
    pub effective_speculative: f32,
}

#[tactic(auto, unfolding(rules::specs::Surface::surface_of))]
pub fn surface_of(settings: Settings, pair: OverlappingPair, given: f32) -> Surface
    ensures { plain_surface result ≡ surface_of (plain_settings settings) (plain_collider pair.c1) (plain_collider pair.c2) (plain_side pair.a) (plain_side pair.b) given }
{
    let friction1 = friction_of(settings, pair.c1, pair.a);
    let friction2 = friction_of(settings, pair.c2, pair.b);
    let restitution1 = restitution_of(settings, pair.c1);
    let restitution2 = restitution_of(settings, pair.c2);
    Surface {
        friction: combine(friction1, friction2),
        restitution: combine(restitution1, restitution2),
        margins: margin_of(pair.c1, pair.a) + margin_of(pair.c2, pair.b),
        effective_speculative: effective_speculative(settings, pair.a, pair.b, given),
    }
}
