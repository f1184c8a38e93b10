// The number of a geometric feature: a vertex, an edge or a face, its kind in the two highest bits. From avian's feature_id.rs.
ghost use Rattle.std.specs.Prelude.{◌≡◌};
ghost use Rattle.contact_types.specs.Features.{feature_at, packed_as, is_kind, number_of};

use words::load::{FromRow, load};

#[derive(Clone, Copy, PartialEq, Eq, Hash, Debug, Default)]
pub struct PackedFeatureId(pub u32);

impl FromRow for PackedFeatureId {
    ghost size = { 1 };

    ghost at = { feature_at };

    fn from_row(row: &[u32], from: usize) -> PackedFeatureId {
        PackedFeatureId(load(row, from))
    }
}

// What a feature is. No kind has the number 0.
#[derive(Clone, Copy, PartialEq, Eq, Hash, Debug)]
enum FeatureKind {
    Vertex = 1,
    Edge = 2,
    Face = 3,
}

impl PackedFeatureId {
    // A feature that is not known. It is a number like any other where features are compared.
    pub const UNKNOWN: Self = PackedFeatureId(0);

    // The code has thirty bits, or there is no number for it.
    fn new(kind: FeatureKind, code: u32) -> Option<PackedFeatureId>
        ensures { result ≡ packed_as (number_of kind) code }
    {
        if code < 1 << 30 {
            Some(PackedFeatureId((kind as u32) << 30 | code))
        } else {
            None
        }
    }

    fn is(self, kind: FeatureKind) -> bool
        ensures { result ≡ is_kind (number_of kind) self.0 }
    {
        self.0 >> 30 == kind as u32
    }

    pub fn vertex(code: u32) -> Option<PackedFeatureId>
        ensures { result ≡ packed_as 1 code }
    {
        PackedFeatureId::new(FeatureKind::Vertex, code)
    }

    pub fn edge(code: u32) -> Option<PackedFeatureId>
        ensures { result ≡ packed_as 2 code }
    {
        PackedFeatureId::new(FeatureKind::Edge, code)
    }

    pub fn face(code: u32) -> Option<PackedFeatureId>
        ensures { result ≡ packed_as 3 code }
    {
        PackedFeatureId::new(FeatureKind::Face, code)
    }

    pub fn is_vertex(self) -> bool
        ensures { result ≡ is_kind 1 self.0 }
    {
        self.is(FeatureKind::Vertex)
    }

    pub fn is_edge(self) -> bool
        ensures { result ≡ is_kind 2 self.0 }
    {
        self.is(FeatureKind::Edge)
    }

    pub fn is_face(self) -> bool
        ensures { result ≡ is_kind 3 self.0 }
    {
        self.is(FeatureKind::Face)
    }
}
