//! IDs stay apart: what no command of the account suite takes away from passwd(5), group(5),
//! subuid(5) and subgid(5).
//!
//! `specs/Apart` says when UIDs and GIDs are distinct and ranges of subordinate IDs apart,
//! `specs/Holders` how many have an ID, `specs/Laws` what each deed keeps of it. In `proofs/` each tool
//! that gives IDs has a file.
#![tactic(auto)]

ghost use Rattle.ids_apart.specs.Laws.{DeedsAddNoHolders, DeedsKeepIdsApart};

/// A deed of any tool gives no ID to one more that has another holder: two users with one UID, two
/// groups with one GID, and two ranges with a number in common had it before. But `useradd -o` and
/// `usermod -o` may share the UID that they name, and `groupadd -o` and `groupmod -o` the GID, which a
/// line of a batch may do too.
pub fn deeds_add_no_holders()
    ensures { DeedsAddNoHolders }
{}

/// So a deed of any tool makes no two ranges of subordinate IDs meet that were apart; and without `-o`,
/// which a line of a batch may have too, it gives no two users one UID and no two groups one GID,
/// where all were distinct before.
pub fn deeds_keep_ids_apart()
    ensures { DeedsKeepIdsApart }
{
    deeds_add_no_holders();
}
