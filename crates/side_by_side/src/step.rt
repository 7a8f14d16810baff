// One step of a schedule.
ghost use Rattle.std.specs.Prelude.{◌≡◌};
ghost use Rattle.side_by_side.specs.Places.{place_of};

use memory_folder::Effect;

/// What one of several sessions does next. It is named by its place, counted from 0; where none
/// stands there, nothing is done.
#[derive(Drop)]
pub enum Step {
    /// It makes its next call of the folder; none where it has ended.
    Turn(usize),
    /// It dies within its next call, which did this as far as it can have. One that hasn't begun ends
    /// without an event, and one that has ended stays as it is.
    Die(usize, Effect),
}

impl Step {
    /// The place of the session.
    pub(crate) fn place(&self) -> usize
        ensures { result ≡ place_of self.now }
    {
        match self {
            Step::Turn(place) | Step::Die(place, _) => *place,
        }
    }
}
