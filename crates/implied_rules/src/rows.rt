use element_store::{ElementNo, MemberNo};
use linker_base::Listing;

/// An implied specialisation: a type, the member that owns it, and the base that it specialises by its kind
/// alone (KerML 8.4.2).
#[derive(Clone, Copy, Debug, PartialEq, Eq)]
pub struct ImpliedRow {
    /// The type.
    pub of: ElementNo,
    /// The member that owns it.
    pub member: MemberNo,
    /// The base.
    pub base: ElementNo,
}

/// Implied specialisations, in order.
pub type ImpliedRows = Listing<ImpliedRow>;
