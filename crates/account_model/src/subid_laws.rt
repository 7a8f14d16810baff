//! A law of subordinate ranges.
ghost use Rattle.std.specs.Prelude.{◌≡◌, ◌↔◌, ◌⊎◌, ◌≤◌, ◌<◌, ℕ, [], ◌∷◌};
ghost use Rattle.std.specs.List.{AllByRecursion};
ghost use Rattle.account_model.specs.declared.records.SubidRecord.{SubidRecord};
ghost use Rattle.account_model.specs.Records.{last_id};
ghost use Rattle.account_model.specs.SubidOwner.{IsInRange, IsInSome, IsPieceOf, left_without};

/// What is left of a range without the numbers from first to last is its other numbers, in ranges
/// of the same owner. A range that loses no number stays as it is (usermod(8), `-V` and `-W`).
pub fn ranges_are_cut()
    ensures left { (first last : ℕ) (r : SubidRecord) (number : ℕ) → 1 ≤ r.count → first ≤ last
        → IsInSome number (left_without first last r)
        ↔ (IsInRange number r × ((number < first) ⊎ (last < number))) }
    ensures pieces { (first last : ℕ) (r : SubidRecord) → 1 ≤ r.count
        → AllByRecursion (IsPieceOf r) (left_without first last r) }
    ensures whole { (first last : ℕ) (r : SubidRecord) → 1 ≤ r.count → first ≤ last
        → (last_id r < first) ⊎ (last < r.first)
        → left_without first last r ≡ r ∷ [] }
{}
