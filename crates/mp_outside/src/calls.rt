ghost use Rattle.std.specs.Prelude.{◌↔◌, Contains, IsTrue};

// Whether the call with this number is to fail.
pub fn is_listed(failing: &[u64], call: u64) -> bool
    ensures { IsTrue result ↔ Contains failing.now call }
{
    failing.contains(&call)
}
