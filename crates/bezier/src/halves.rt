//! The halves of a row of points, by rounds of halving.
ghost use Rattle.std.specs.Prelude.{◌≡◌, ℕ, ◌+◌, ◌*◌, ◌<◌, ◌≤◌, length, take, drop, slice_index_or};
ghost use Rattle.distance.specs.Measures.{halfway};
ghost use Rattle.bezier.specs.Rounds.{left_half, right_half};

use distance::measure::Distance;
use distance::points::halved;

/// Each of the first `m` points becomes the halving of itself and the next.
fn next_round<P: Distance>(work: &mut [P], m: usize)
    requires { m < length work.old }
    ensures halvings { (k : ℕ) (d : P) → k < m → slice_index_or work.new k d ≡ halfway P.Ordinate.kind (slice_index_or work.old k d) (slice_index_or work.old (k + 1) d) }
    ensures rest { (k : ℕ) (d : P) → m ≤ k → slice_index_or work.new k d ≡ slice_index_or work.old k d }
{
    // By index, as each point is written while the next is still to be read.
    for i in 0..m {
        let a = work[i];
        let b = work[i + 1];
        work[i] = halved(a, b);
    }
}

/// The rounds of the first n + 1 points: the last point of each stays, and the first goes into the n + 1 places after them.
fn rounds<P: Distance>(work: &mut [P], n: usize)
    requires { 2 * (n + 1) ≤ length work.old }
    ensures right { take (n + 1) work.new ≡ right_half P.Ordinate.kind (take (n + 1) work.old) }
    ensures left { take (n + 1) (drop (n + 1) work.new) ≡ left_half P.Ordinate.kind (take (n + 1) work.old) }
    ensures rest { drop (2 * (n + 1)) work.new ≡ drop (2 * (n + 1)) work.old }
{
    // `k` counts the rounds: it is no place of a list that could be gone through.
    for k in 0..n {
        let first = work[0];
        work[n + 1 + k] = first;
        next_round(work, n - k);
    }
    let last = work[0];
    work[n + 1 + n] = last;
}

/// Writes the right half of the first n + 1 points over them, and their left half into the n + 1 places after them.
/// Where there are no such places, nothing changes.
pub fn halve_row<P: Distance>(work: &mut [P], n: usize)
    ensures right { 2 * (n + 1) ≤ length work.old → take (n + 1) work.new ≡ right_half P.Ordinate.kind (take (n + 1) work.old) }
    ensures left { 2 * (n + 1) ≤ length work.old → take (n + 1) (drop (n + 1) work.new) ≡ left_half P.Ordinate.kind (take (n + 1) work.old) }
    ensures rest { 2 * (n + 1) ≤ length work.old → drop (2 * (n + 1)) work.new ≡ drop (2 * (n + 1)) work.old }
    ensures short { length work.old < 2 * (n + 1) → work.new ≡ work.old }
{
    if n >= work.len() / 2 {
        return;
    }
    rounds(work, n);
}
