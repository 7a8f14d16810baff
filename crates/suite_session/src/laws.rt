// A law over definitions alone: what keeps a session belonging to a folder.
ghost use Rattle.suite_session.specs.Belongs.{BelongingStays};

use acct_outside::Folder;

/// A session belongs to a folder still after whatever others did there, be it that they died, and where
/// a stream failed that was to take its answer.
pub fn belonging_stays<F: Folder>()
    ensures { BelongingStays F.moment }
{}
