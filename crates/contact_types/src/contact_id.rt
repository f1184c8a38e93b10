// A stable identifier of a contact. From avian's contact_types/mod.rs.
#[derive(Clone, Copy, PartialEq, Eq, PartialOrd, Ord, Hash, Debug)]
pub struct ContactId(pub u32);

impl ContactId {
    // No contact's id.
    pub const PLACEHOLDER: Self = ContactId(u32::MAX);
}
