// The problems of a line, as they are found (pwck(8), grpck(8)).
ghost use Rattle.std.specs.Prelude.{◌≡◌, ◌++◌, [], ◌∷◌, map, IfOk, OnOk};
ghost use Rattle.account_model.specs.Problems as model;
ghost use Rattle.account_model.specs.Problems.{problem_if};
ghost use Rattle.check_reports.specs.Seen.{seen_problem};

use crate::problem::Problem;
use std::alloc::{AllocError, Global};
use std::marker::Model;

/// The problems of a line, in the order in which they are told.
#[derive(Drop)]
pub(crate) struct Problems<'a> {
    found: Vec<Problem<'a>>,
}

impl<'a> Model for Problems<'a> {
    ghost use Rattle.std.specs.Prelude.{List, map};
    ghost use Rattle.account_model.specs.Problems as model;
    ghost use Rattle.check_reports.specs.Seen.{seen_problem};

    ghost Value = { List model.Problem };

    ghost view = { λ p. map seen_problem p.found.items };
}

impl<'a> Problems<'a> {
    /// No problem. It allocates nothing.
    pub(crate) fn none(alloc: Global) -> Self
        ensures { result ≡ [] }
    {
        Problems {
            found: Vec::new(alloc),
        }
    }

    /// The problem of a line that is other text.
    pub(crate) fn invalid_entry(alloc: Global) -> Result<Self, AllocError>
        ensures { IfOk result (λ problems. problems ≡ model.InvalidEntry ∷ []) }
    {
        let mut problems = Problems::none(alloc);
        problems.found.push(Problem::InvalidEntry)?;
        Ok(problems)
    }

    /// Adds the problem where the test holds.
    pub(crate) fn note_if(&mut self, test: bool, problem: Problem<'a>) -> Result<(), AllocError>
        ensures { OnOk result (self.new
            ≡ self.old ++ problem_if test (seen_problem problem.entry)) }
    {
        if test {
            self.found.push(problem)?;
        }
        Ok(())
    }

    /// The problems.
    pub(crate) fn as_slice(&self) -> &[Problem<'a>]
        ensures { map seen_problem result.now ≡ self.now }
    {
        self.found.as_slice()
    }
}
