//! The names of roles.
ghost use Rattle.std.specs.Prelude.{◌≡◌};
ghost use Rattle.desk_wire.specs.Roles.{role_name, role_named};

use registry_core::Role;

/// Returns the role with exactly this name.
pub(crate) fn role_named(text: &str) -> Option<Role>
    ensures { result ≡ role_named text.now }
{
    match text {
        "operator" => Some(Role::Operator),
        "radio" => Some(Role::Radio),
        _ => None,
    }
}

/// Returns the name of a role.
pub fn role_name(role: Role) -> &'static str
    ensures { result.now ≡ role_name role }
{
    match role {
        Role::Operator => "operator",
        Role::Radio => "radio",
    }
}
