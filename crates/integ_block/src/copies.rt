ghost use Rattle.std.specs.Prelude.{◌≡◌, option_map};
ghost use Rattle.gds_law.specs.Visit.{role_of};

use gds_law::Role;
use m_key::{Key, key_from};

/// The same bound.
pub(crate) fn bound_of(bound: &Option<Key>) -> Option<Key>
    ensures { option_map (λ key. key.items) result ≡ option_map (λ key. key.items) bound.now }
{
    match bound {
        Some(key) => Some(key_from(key.as_slice())),
        None => None,
    }
}

/// The same role.
pub(crate) fn role_of(role: &Role) -> Role
    ensures { role_of result ≡ role_of role.now }
{
    match role {
        Role::Directory => Role::Directory,
        Role::Global(name) => Role::Global(key_from(name.as_slice())),
    }
}
