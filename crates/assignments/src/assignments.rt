// The role pairs and the permissions that are assigned to device roles.
#[derive(Drop)]
pub struct Assignments<S, T> {
    pub(crate) role_pairs: S,
    pub(crate) permissions: T,
}
