//! The theorem on the fewest cells.
ghost use Rattle.curve.specs.Fewest.{HalvingIsFewest};

/// The halving finds a division with the fewest cells. It does nothing but say so.
pub fn halving_is_fewest()
    ensures { HalvingIsFewest }
{}
