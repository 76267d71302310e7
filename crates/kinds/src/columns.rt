// The columns of each kind.
ghost use Rattle.std.specs.Prelude.{◌≡◌};
ghost use Rattle.kinds.specs.Columns.{declaring, relating, asking, columns_of, repeated_of, column_at, takes, permission_place_lem};

use crate::column::{Column, NameTable};
use crate::kind::{Kind, Request};
use tables::{Relation, Thing};

// The most fields that a record may have, its name included.
const MOST_FIELDS: usize = 40;

const USER: Column = Column::Known(NameTable::Things(Thing::User));

const ROLE: Column = Column::Known(NameTable::Things(Thing::Role));

const DEVICE: Column = Column::Known(NameTable::Things(Thing::Device));

const OPERATION: Column = Column::Known(NameTable::Things(Thing::Operation));

const DEVICE_ROLE: Column = Column::Known(NameTable::Things(Thing::DeviceRole));

const CONDITION: Column = Column::Known(NameTable::Things(Thing::Condition));

const ENVIRONMENT_ROLE: Column = Column::Known(NameTable::Things(Thing::EnvironmentRole));

const UNIT: Column = Column::Known(NameTable::Things(Thing::Unit));

const ROLE_PAIR: Column = Column::Known(NameTable::RolePairs);

const NUMBER: Column = Column::Number;

// The columns of a record that declares a thing.
// A list that outlives the call is made of constants, so each thing has a line of its own.
fn declaring(thing: Thing) -> &'static [Column]
    ensures { result.now ≡ declaring thing }
{
    match thing {
        Thing::User => &[Column::New(NameTable::Things(Thing::User))],
        Thing::Role => &[Column::New(NameTable::Things(Thing::Role))],
        Thing::Device => &[Column::New(NameTable::Things(Thing::Device))],
        Thing::Operation => &[Column::New(NameTable::Things(Thing::Operation))],
        Thing::DeviceRole => &[Column::New(NameTable::Things(Thing::DeviceRole))],
        Thing::Condition => &[Column::New(NameTable::Things(Thing::Condition))],
        Thing::EnvironmentRole => &[Column::New(NameTable::Things(Thing::EnvironmentRole))],
        Thing::Unit => &[Column::New(NameTable::Things(Thing::Unit))],
    }
}

// The columns of a record that puts a pair in a relation.
fn relating(relation: Relation) -> &'static [Column]
    ensures { result.now ≡ relating relation }
{
    match relation {
        Relation::UserRoles => &[USER, ROLE],
        Relation::PermissionAssignment => &[DEVICE, OPERATION, DEVICE_ROLE],
        Relation::RolePairAssignment => &[ROLE_PAIR, DEVICE_ROLE],
        Relation::Bars => &[DEVICE, OPERATION, ROLE],
        Relation::StaticSeparation => &[ROLE, ROLE],
        Relation::DynamicSeparation => &[ROLE, ROLE],
        Relation::Administrators => &[USER, UNIT],
        Relation::RoleTaskRolePairs => &[UNIT, ROLE_PAIR],
        Relation::RoleTaskDeviceRoles => &[UNIT, DEVICE_ROLE],
        Relation::PermissionTaskPermissions => &[UNIT, DEVICE, OPERATION],
        Relation::PermissionTaskDeviceRoles => &[UNIT, DEVICE_ROLE],
        Relation::ProhibitedPairs => &[ROLE_PAIR, DEVICE_ROLE],
    }
}

// The columns of a request.
fn asking(request: Request) -> &'static [Column]
    ensures { result.now ≡ asking request }
{
    match request {
        Request::Open => &[NUMBER],
        Request::Start => &[NUMBER, USER],
        Request::End => &[NUMBER],
        Request::Activate => &[NUMBER, ROLE],
        Request::Drop => &[NUMBER, ROLE],
        Request::CheckAccess => &[NUMBER, DEVICE, OPERATION],
        Request::AssignRolePair => &[USER, UNIT, ROLE_PAIR, DEVICE_ROLE],
        Request::RevokeRolePair => &[USER, UNIT, ROLE_PAIR, DEVICE_ROLE],
        Request::AssignPermission => &[USER, UNIT, DEVICE, OPERATION, DEVICE_ROLE],
        Request::RevokePermission => &[USER, UNIT, DEVICE, OPERATION, DEVICE_ROLE],
        Request::Sense => &[CONDITION, Column::Flag],
        Request::Clock => &[NUMBER],
        Request::Window => &[CONDITION, NUMBER, NUMBER],
    }
}

impl Kind {
    // The columns that each record of the kind has.
    pub fn columns(self) -> &'static [Column]
        ensures { result.now ≡ columns_of self }
    {
        match self {
            Kind::Declare(thing) => declaring(thing),
            Kind::Permission => &[DEVICE, OPERATION],
            Kind::RolePair => &[Column::New(NameTable::RolePairs), ROLE],
            Kind::Entry => &[ENVIRONMENT_ROLE],
            Kind::Relate(relation) => relating(relation),
            Kind::Ask(request) => asking(request),
        }
    }

    // The column that may stand none or more times behind those.
    pub fn repeated(self) -> Option<Column>
        ensures { result ≡ repeated_of self }
    {
        match self {
            Kind::RolePair => Some(ENVIRONMENT_ROLE),
            Kind::Entry => Some(CONDITION),
            Kind::Declare(_) | Kind::Permission | Kind::Relate(_) | Kind::Ask(_) => None,
        }
    }

    // The column at a place; place 0 is that of the field behind the record name.
    pub fn column(self, place: usize) -> Column
        ensures { result ≡ column_at self place }
    {
        match self.columns().get(place) {
            Some(column) => *column,
            None => self.repeated().unwrap_or(Column::Flag),
        }
    }

    // Whether a record of the kind may have that many fields, its name included.
    pub fn takes(self, count: usize) -> bool
        ensures { result ≡ takes self count }
    {
        let least = self.columns().len() + 1;
        match self.repeated() {
            Some(_) => (least..=MOST_FIELDS).contains(&count),
            None => count == least,
        }
    }

    // Where the device stands that has to form a declared permission with the operation behind it.
    pub fn permission_place(self) -> Option<usize>
        ensures { result ≡ permission_place_lem self }
    {
        match self {
            Kind::Relate(Relation::PermissionAssignment | Relation::Bars) => Some(0),
            Kind::Relate(Relation::PermissionTaskPermissions) => Some(1),
            Kind::Ask(Request::AssignPermission | Request::RevokePermission) => Some(2),
            _ => None,
        }
    }
}
