//! Names of sockets.

ghost use Rattle.std.specs.Prelude.{◌≡◌};
ghost use Rattle.cddl_language.specs.Environment.{is_group_socket, is_socket};

/// Whether the name is a socket, `$name` or `$$name` (RFC 8610 section 3.9).
pub fn is_socket(name: &str) -> bool
    ensures { result ≡ is_socket name.now }
{
    matches!(name.as_bytes(), [b'$', ..])
}

/// Whether the name is a socket of groups, `$$name`.
pub fn is_group_socket(name: &str) -> bool
    ensures { result ≡ is_group_socket name.now }
{
    matches!(name.as_bytes(), [b'$', b'$', ..])
}
