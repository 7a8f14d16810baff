//! A law of lists in which a user was renamed.
ghost use Rattle.std.specs.Prelude.{◌≡◌, ◌≢◌, ℕ, true, false, List, ◌∷◌, ◌++◌};
ghost use Rattle.account_model.specs.Text.{is_listed};
ghost use Rattle.account_model.specs.Members.{renamed_in};

/// In a list with the old name the old name is gone after the renaming, the new one stands once,
/// and all others stay. A list without the old name stays (usermod(8), `-l`).
pub fn lists_are_renamed()
    ensures gone { (old new : List ℕ) (names : List (List ℕ)) → old ≢ new
        → is_listed old names ≡ true
        → is_listed old (renamed_in old new names) ≡ false }
    ensures once { (old new : List ℕ) (names : List (List ℕ)) → old ≢ new
        → is_listed old names ≡ true
        → (before : List (List ℕ)) × (after : List (List ℕ))
        × (renamed_in old new names ≡ before ++ new ∷ after)
        × (is_listed new before ≡ false) × (is_listed new after ≡ false) }
    ensures others { (old new other : List ℕ) (names : List (List ℕ)) → old ≢ new
        → is_listed old names ≡ true → other ≢ old → other ≢ new
        → is_listed other (renamed_in old new names) ≡ is_listed other names }
    ensures unlisted { (old new : List ℕ) (names : List (List ℕ)) → is_listed old names ≡ false
        → renamed_in old new names ≡ names }
{}
