//! The theorems about lists of calls, over every kind of points, reduction and outlet. These functions do nothing but say them.
ghost use Rattle.turn.specs.Claims.{Exact, Pinned, Playable, StaysWhole};
ghost use Rattle.turn.specs.Settings.{LawfulSetting, Setting};

/// The promise holds after every list of calls.
pub fn every_run_is_whole<P>()
    ensures { (A : Setting P) → LawfulSetting A → StaysWhole A }
{}

/// The promise leaves nothing open.
pub fn runs_are_pinned<P>()
    ensures { (A : Setting P) → Pinned A }
{}

/// Every call has exactly one outcome.
pub fn outcomes_are_exact<P>()
    ensures { (A : Setting P) → LawfulSetting A → Exact A }
{}

/// The legs of a whole turn can be played: a card of them is one that its reader accepts.
pub fn whole_turns_are_playable<P>()
    ensures { (A : Setting P) → LawfulSetting A → Playable A }
{}
