//! Words, each of which stands for a value.
ghost use Rattle.std.specs.Prelude.{◌≡◌, ◌≢◌, ℕ, List, Contains, find, MatchOption};
ghost use Rattle.std.specs.Str.{bytes_eq};
ghost use Rattle.plan_text.specs.Lexing.{IsWord};

/// A type whose values have a word each.
pub trait Word: Copy + 'static {
    ghost all: { List Self };

    ghost text: { Self → List ℕ };

    /// Every value of the type.
    fn all() -> &'static [Self]
        ensures { result.now ≡ all };

    /// The word that stands for the value.
    fn word(self) -> &'static [u8]
        ensures { result.now ≡ text self };

    ghost every: { (value : Self) → Contains all value };

    ghost words: { (value : Self) → IsWord (text value) };

    ghost apart: { (value other : Self) → text value ≡ text other → value ≡ other };
}

/// The first value, in the order of `all`, whose word the octets are.
fn first_named<W: Word>(octets: &[u8]) -> Option<W>
    ensures { result ≡ find (λ value. bytes_eq (W.text value) octets.now) W.all }
{
    W::all()
        .iter()
        .copied()
        .find(|value| value.word() == octets)
}

/// The value whose word the octets are.
pub fn read_word<W: Word>(octets: &[u8]) -> Option<W>
    ensures { MatchOption result ((value : W) → octets.now ≢ W.text value) (λ value. octets.now ≡ W.text value) }
{
    first_named(octets)
}
