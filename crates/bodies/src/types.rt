// Kind 1: the action types.
ghost use Rattle.std.specs.Prelude.{◌≡◌};
ghost use Rattle.bodies.specs.Types.{is_type, types_ok};

// The types are the file's own bytes, which the model numbers too.
fn is_type(t: u8) -> bool
    ensures { result ≡ is_type t }
{
    matches!(t, 1..=3)
}

// Whether each byte is a type.
pub fn types_ok(b: &[u8]) -> bool
    ensures { result ≡ types_ok b.now }
{
    b.iter().all(|&t| is_type(t))
}
