//! Laws of the lines that a deed leaves.
ghost use Rattle.account_model.specs.DeedLines.{DeedsKeepOrder, DeedsLeaveUntouched};
ghost use Rattle.account_model.specs.NamedLines.{DeedsLeaveUnnamed, DeedsTouchNamed};

/// A deed is what its edits make, those of its tool or of the lines of a batch one after another, and
/// each line that they don't touch stays byte for byte, in its order unless they sort, as only those of
/// `pwck -s` and `grpck -s` do.
pub fn deeds_leave_untouched()
    ensures leave { DeedsLeaveUntouched }
    ensures order { DeedsKeepOrder }
{}

/// The edits of a deed touch no record that its command, or a command of its batch, doesn't name: the
/// lines of its users and groups, the lists that they stand in, their ranges, and with groupmod(8) the
/// users of the primary GID that it changes. So each line that isn't named stays byte for byte, in its
/// order unless they sort.
pub fn deeds_leave_unnamed()
    ensures touch { DeedsTouchNamed }
    ensures leave { DeedsLeaveUnnamed }
{}
