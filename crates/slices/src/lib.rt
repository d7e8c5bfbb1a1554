// What the standard library's slices lack.
#![tactic(auto)]

ghost use Rattle.std.specs.Prelude.{◌≡◌, set};

// Stores an element where a slice has the place.
pub fn put<T: Copy>(xs: &mut [T], at: usize, x: T)
    ensures { xs.new ≡ set xs.old at x }
{
    if at < xs.len() {
        xs[at] = x;
    }
}
