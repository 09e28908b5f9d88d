//! The binomials, as far as curves of degree 8 need them.
ghost use Rattle.std.specs.Prelude.{◌≡◌, ℕ, suc, ◌+◌, ◌<◌, ◌≤◌, MatchOption};
ghost use Rattle.bezier.specs.Bernstein.{choose};

/// Rows 0 to 8: each entry is the sum of its two neighbours in the row above.
const BINOMIALS: [[u32; 9]; 9] = [
    [1, 0, 0, 0, 0, 0, 0, 0, 0],
    [1, 1, 0, 0, 0, 0, 0, 0, 0],
    [1, 2, 1, 0, 0, 0, 0, 0, 0],
    [1, 3, 3, 1, 0, 0, 0, 0, 0],
    [1, 4, 6, 4, 1, 0, 0, 0, 0],
    [1, 5, 10, 10, 5, 1, 0, 0, 0],
    [1, 6, 15, 20, 15, 6, 1, 0, 0],
    [1, 7, 21, 35, 35, 21, 7, 1, 0],
    [1, 8, 28, 56, 70, 56, 28, 8, 1],
];

pub(crate) fn table_entry(n: usize, i: usize) -> u32
    requires row { n ≤ 8 }
    requires column { i ≤ 8 }
    ensures { result ≡ choose n i }
{
    BINOMIALS[n][i]
}

/// C(n, i), for n up to 8; nothing for rows that no curve needs.
pub fn binomial(n: usize, i: usize) -> Option<u32>
    ensures value { MatchOption result (8 < n) (λ b. (n ≤ 8) × (b ≡ choose n i)) }
    ensures sum_rule { (m j : ℕ) → choose (suc m) (suc j) ≡ choose m j + choose m (suc j) }
{
    if n > 8 {
        return None;
    }
    if i > n {
        return Some(0);
    }
    Some(table_entry(n, i))
}
