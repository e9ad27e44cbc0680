//! Where the fault of a rule is reported: at the offset of the name that it defines.

ghost use Rattle.std.specs.Prelude.{◌≡◌, if◌then◌else◌, Some, None};

// The offset of a rule, where the rule has a fault.
pub(crate) fn start_if(start: usize, is_fault: bool) -> Option<usize>
    ensures { result ≡ (if is_fault then Some start else None) }
{
    if is_fault { Some(start) } else { None }
}
