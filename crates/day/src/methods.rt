// Methods, as a person names them on the command line.
ghost use Rattle.std.specs.Prelude.{◌≡◌, ℕ, MatchOption};
ghost use Rattle.day.specs.Naming.{Names};

// The method that a word names: one decimal digit or more, at most 65,535.
pub fn method_named(word: &str) -> Option<u16>
    ensures { MatchOption result ((m : ℕ) → Names word.now m → ⊥) (λ m. Names word.now m) }
{
    if word.starts_with('+') {
        return None;
    }
    word.parse().ok()
}
