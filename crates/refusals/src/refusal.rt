ghost use Rattle.std.specs.Prelude.{◌≡◌};
ghost use Rattle.refusals.specs.Codes.{code_of};

use thiserror::Error;

// Each reason for which a call can be refused, in the order in which they are tested.
// A reason found in a text carries its place: the offset of a byte.
#[derive(Clone, Copy, Debug, Error)]
pub enum Refusal {
    #[error("the line for the answer is too short")]
    LineTooShort,
    #[error("the lent memory is too short")]
    MemoryTooShort,
    #[error("the text is too long")]
    TextTooLong,
    #[error("quotes or line breaks of the record break the layout, at byte {at}")]
    MalformedRecord { at: usize },
    #[error("the name of the record is unknown, at byte {at}")]
    UnknownRecord { at: usize },
    #[error("the record has the wrong number of fields, at byte {at}")]
    WrongFieldCount { at: usize },
    #[error("a field is badly written, at byte {at}")]
    BadlyWritten { at: usize },
    #[error("the name or permission is already declared, at byte {at}")]
    AlreadyDeclared { at: usize },
    #[error("a name, number or permission is not declared, at byte {at}")]
    NotDeclared { at: usize },
    #[error("the list is full, at byte {at}")]
    TableFull { at: usize },
    #[error("a lease of the house is out, or a session of it lives")]
    HouseInUse,
    #[error("the draft is ill-formed")]
    IllFormedDraft,
    #[error("a user holds two separated roles")]
    SeparatedRolesHeld,
    #[error("a pair is in the tasks of two units")]
    UnitsOverlap,
    #[error("a prohibited pair is assigned")]
    ProhibitedPairAssigned,
    #[error("a role reaches a permission that is barred to it")]
    ReachesBarredPermission,
    #[error("the lease is invalid")]
    InvalidLease,
    #[error("a number is not declared in the house, or out of range")]
    NoSuchNumber,
    #[error("the user does not administer the unit")]
    NotAdministrator,
    #[error("the unit's lease is out")]
    LeaseOut,
    #[error("the pair to be changed is prohibited")]
    ProhibitedPair,
    #[error("the pair is not in the unit's task")]
    OutsideTask,
    #[error("the pair is already assigned")]
    AlreadyAssigned,
    #[error("the pair is not assigned")]
    NotAssigned,
    #[error("a role would reach a permission that is barred to it")]
    WouldReachBarredPermission,
    #[error("the session already lives")]
    SessionLive,
    #[error("the session does not live")]
    SessionNotLive,
    #[error("the session's user does not hold the role")]
    RoleNotHeld,
    #[error("the role already is what the call would make it")]
    RoleUnchanged,
    #[error("two separated roles would be active in the session")]
    SeparatedRolesActive,
    #[error("device and operation form no permission of the house")]
    NoSuchPermission,
}

impl Refusal {
    // The published number of the reason. A method and no `From`, so that a call says which number it takes.
    pub fn code(self) -> u32
        ensures { result ≡ code_of self }
    {
        match self {
            Refusal::LineTooShort => 1,
            Refusal::MemoryTooShort => 2,
            Refusal::TextTooLong => 3,
            Refusal::MalformedRecord { .. } => 4,
            Refusal::UnknownRecord { .. } => 5,
            Refusal::WrongFieldCount { .. } => 6,
            Refusal::BadlyWritten { .. } => 7,
            Refusal::AlreadyDeclared { .. } => 8,
            Refusal::NotDeclared { .. } => 9,
            Refusal::TableFull { .. } => 10,
            Refusal::HouseInUse => 11,
            Refusal::IllFormedDraft => 12,
            Refusal::SeparatedRolesHeld => 13,
            Refusal::UnitsOverlap => 14,
            Refusal::ProhibitedPairAssigned => 15,
            Refusal::ReachesBarredPermission => 16,
            Refusal::InvalidLease => 17,
            Refusal::NoSuchNumber => 18,
            Refusal::NotAdministrator => 19,
            Refusal::LeaseOut => 20,
            Refusal::ProhibitedPair => 21,
            Refusal::OutsideTask => 22,
            Refusal::AlreadyAssigned => 23,
            Refusal::NotAssigned => 24,
            Refusal::WouldReachBarredPermission => 25,
            Refusal::SessionLive => 26,
            Refusal::SessionNotLive => 27,
            Refusal::RoleNotHeld => 28,
            Refusal::RoleUnchanged => 29,
            Refusal::SeparatedRolesActive => 30,
            Refusal::NoSuchPermission => 31,
        }
    }
}
