//! Work points: lent by the caller, used by the halving, and left at zero.
ghost use Rattle.std.specs.Prelude.{◌≡◌, length, replicate};
ghost use Rattle.distance.specs.Measures.{blank};

use distance::measure::Distance;

/// Sets all work points to zero.
pub(crate) fn wipe<P: Distance>(work: &mut [P])
    ensures { work.new ≡ replicate (length work.old) (blank P.Ordinate.kind) }
{
    for i in 0..work.len() {
        work[i] = P::zero();
    }
}
