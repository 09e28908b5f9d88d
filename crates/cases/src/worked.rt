//! The theorem on the worked cases.
ghost use Rattle.std.specs.Prelude.{◌≡◌, IsTrue, length};
ghost use Rattle.std.specs.List.{list_all};
ghost use Rattle.cases.specs.Cases.{Deciding, holds, worked};

use bezier::chord::Chord;
use bezier::matching::Matching;
use ordinate::branches::Branches;
use ordinate::flow::Flow;

/// All the worked cases hold. It answers how many there are.
pub fn worked_cases_hold() -> usize
    ensures hold { IsTrue (list_all holds worked) }
    ensures matching { Deciding Flow Matching }
    ensures chord { Deciding Flow Chord }
    ensures boxes { Deciding Branches Chord }
    ensures number { result ≡ length worked }
{
    37
}
