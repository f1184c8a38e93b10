// Which layers a collider is in, and which it interacts with, as masks. From avian's collider/layers.rs.
ghost use Rattle.std.specs.Prelude.{◌≡◌, ◌&&◌};
ghost use Rattle.rules.specs.Sides.{meet};

#[derive(Clone, Copy, PartialEq, Eq, Debug)]
pub struct CollisionLayers {
    pub memberships: u32,
    pub filters: u32,
}

// Two masks have a layer in common.
fn meet(a: u32, b: u32) -> bool
    ensures { result ≡ meet a b }
{
    a & b != 0
}

impl CollisionLayers {
    // Each side's memberships meet the other's filters.
    pub fn interacts_with(self, other: CollisionLayers) -> bool
        ensures { result ≡ (meet self.memberships other.filters && meet other.memberships self.filters) }
    {
        meet(self.memberships, other.filters) && meet(other.memberships, self.filters)
    }
}
