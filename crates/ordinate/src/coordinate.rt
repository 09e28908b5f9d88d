//! One coordinate: its octets on a card, and a range.
ghost use Rattle.std.specs.Prelude.{◌≡◌, ◌↔◌, IsTrue, pos, neg_ℤ};
ghost use Rattle.ordinate.specs.Octets.{octets_of, coordinate_of};
ghost use Rattle.ordinate.specs.Kinds.{Between, reach};

/// Two's complement, the most significant octet first.
// The library's own conversions, under names whose clauses say once what a card means by them.
pub fn to_octets(value: i64) -> [u8; 8]
    ensures { result ≡ octets_of value }
{
    value.to_be_bytes()
}

/// The coordinate that has these octets.
pub fn from_octets(octets: [u8; 8]) -> i64
    ensures { result ≡ coordinate_of octets }
{
    i64::from_be_bytes(octets)
}

/// How far from zero a leg's flows may lie: four times the limit of drawn flows.
const REACH: i64 = 8_589_934_592;

/// Whether a leg may have this flow as a coordinate.
pub fn is_in_reach(value: i64) -> bool
    ensures { IsTrue result ↔ Between (neg_ℤ (pos reach)) (pos reach) value }
{
    is_between(-REACH, REACH, value)
}

pub fn is_between(least: i64, greatest: i64, value: i64) -> bool
    ensures { IsTrue result ↔ Between least greatest value }
{
    least <= value && value <= greatest
}
