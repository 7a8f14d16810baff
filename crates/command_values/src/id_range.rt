// IDs from a first to a last one (usermod(8), `-v`, `-V`, `-w` and `-W`).
ghost use Rattle.std.specs.Prelude.{◌≤◌};
ghost use Rattle.account_model.specs.Records.{greatest_id};

/// IDs from a first to a last one, which isn't below the first.
#[derive(Clone, Copy, Drop)]
pub struct IdRange {
    /// The first ID.
    pub first: u32,
    /// The last ID, at most 4294967294.
    pub last: u32,
    pub ghost ordered: { first ≤ last },
    pub ghost small: { last ≤ greatest_id },
}
