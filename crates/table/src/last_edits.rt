// The last edits that were looked at. chpasswd(8) makes the same two of a user over and over where lines of
// its input are the same.
ghost use Rattle.std.specs.Prelude.{◌≡◌, None, Some, true, false, MatchOption};
ghost use Rattle.line_edits.specs.SeenEdits.{seen_edit};
ghost use Rattle.table.specs.LastEdits.{IsOneOf};

use line_edits::{Edit, EditedRecord, are_same};

/// The last two edits, as far as there are so many.
#[derive(Drop)]
pub(crate) struct LastEdits<'e, E> {
    /// The last one.
    pub(crate) last: Option<&'e E>,
    /// The one before.
    pub(crate) older: Option<&'e E>,
}

impl<'e, E> LastEdits<'e, E> {
    /// No edits.
    pub(crate) fn none() -> Self
        ensures { result ≡ record { last = None; older = None } }
    {
        LastEdits {
            last: None,
            older: None,
        }
    }

    /// These and one more.
    pub(crate) fn with(&self, edit: &'e E) -> Self
        ensures { result ≡ record { last = Some edit.entry; older = self.now.last } }
    {
        LastEdits {
            last: Some(edit),
            older: self.last,
        }
    }

    /// These and one more, or none where that one changes something.
    pub(crate) fn unless(&self, differs: bool, edit: &'e E) -> Self
        ensures none { differs ≡ true → result ≡ record { last = None; older = None } }
        ensures more { differs ≡ false
            → result ≡ record { last = Some edit.entry; older = self.now.last } }
    {
        if differs {
            return LastEdits::none();
        }
        self.with(edit)
    }
}

/// Whether one of them is surely the same as the edit.
pub(crate) fn have_same<R: EditedRecord>(
    last: &LastEdits<'_, Edit<R, R::Change>>,
    edit: &Edit<R, R::Change>,
) -> bool
    ensures { result ≡ true → IsOneOf R.becomes (seen_edit R.becomes edit.now) last.now }
{
    is_same::<R>(last.last, edit) || is_same::<R>(last.older, edit)
}

// Whether there is such an edit, which is surely the same.
fn is_same<R: EditedRecord>(other: Option<&Edit<R, R::Change>>, edit: &Edit<R, R::Change>) -> bool
    ensures { result ≡ true → MatchOption other.entry ⊥ (λ other.
        seen_edit R.becomes other.now ≡ seen_edit R.becomes edit.now) }
{
    match other {
        Some(other) => are_same(other, edit),
        None => false,
    }
}
