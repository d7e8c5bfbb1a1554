// Counts written into a lent tally, as many as fit.
#![tactic(auto)]

ghost use Rattle.std.specs.Prelude.{◌≡◌};
ghost use Rattle.counts.specs.Counts.{overwritten};

// Writes counts from the start of a tally on.
pub fn put_counts(tally: &mut [u64], counts: &[u64])
    ensures { tally.new ≡ overwritten counts.now tally.old }
{
    for (i, n) in counts.iter().enumerate() {
        slices::put(tally, i, *n);
    }
}
