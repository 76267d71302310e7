use crate::register::Register;
use tables::LIST_LIMIT;

// How many names of a kind of things there can be, of units, and of role pairs.
pub(crate) const THINGS: usize = 32;

pub(crate) const UNITS: usize = 16;

pub(crate) const ROLE_PAIRS: usize = LIST_LIMIT as usize;

// The memory that is lent for all names has at least so many places.
pub const NAME_PLACES: usize = 7 * THINGS + UNITS + ROLE_PAIRS;

// The declared names of each table: a name's number is its place.
#[derive(Drop)]
pub struct Names<'a> {
    pub(crate) users: Register<'a, THINGS>,
    pub(crate) roles: Register<'a, THINGS>,
    pub(crate) devices: Register<'a, THINGS>,
    pub(crate) operations: Register<'a, THINGS>,
    pub(crate) device_roles: Register<'a, THINGS>,
    pub(crate) conditions: Register<'a, THINGS>,
    pub(crate) environment_roles: Register<'a, THINGS>,
    pub(crate) units: Register<'a, UNITS>,
    pub(crate) role_pairs: Register<'a, ROLE_PAIRS>,
}
