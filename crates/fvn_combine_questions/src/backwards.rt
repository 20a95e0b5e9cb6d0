//! Places from the last one on.
ghost use Rattle.std.specs.Prelude.{◌≡◌, ◌<◌, ◌+◌};

// The place that is so many before the last one of so many.
pub(crate) fn backwards(count: usize, step: usize) -> usize
    requires { step < count }
    ensures { result + step + 1 ≡ count }
{
    count - 1 - step
}
