// Numbers as runs of those that follow one another, of which no two touch. Contracts see them as a
// set: they name members, and no order.
ghost use Rattle.std.specs.Prelude.{◌≡◌, ◌≤◌, [], All, IfOk, IsSome, MatchOption, OnOk, OnErr};
ghost use Rattle.std.specs.BTreeMap.{IsOrdered, IsUnchanged, Updates, get};
ghost use Rattle.std.specs.Ordering.{nat_cmp};
ghost use Rattle.account_model.specs.Ids.{is_used};
ghost use Rattle.id_choice.specs.RunMaps.{IsRunMap, AreApartUpTo, BeginsAt, EndsAt, EndsBefore, HasBehind, HasFrom, HasNoneBehind, HasNoneFrom, HasNoneUpTo, HoldsRun, HasUpTo, IsWithoutRuns, KeepsBehind, last_before};

use std::alloc::{AllocError, Global};
use std::collections::BTreeMap;
use std::marker::Model;

/// The numbers from the first to the last.
#[derive(Clone, Copy)]
pub struct Run {
    /// The first number.
    pub first: u32,
    /// The last number.
    pub last: u32,
}

/// A set of numbers. Its memory and its time go by the runs of numbers that follow one another.
#[derive(Drop)]
pub struct Runs {
    // from the first number of each run to its last
    runs: BTreeMap<u32, u32>,
}

impl Model for Runs {
    ghost use Rattle.std.specs.Prelude.{List, ℕ};
    ghost use Rattle.id_choice.specs.RunMaps.{IsRunMap, numbers_of};

    ghost Value = { List ℕ };

    ghost view = { λ r. numbers_of r.runs.entries };

    ghost invariant = { λ r. IsRunMap r.runs };
}

impl Runs {
    ghost use Rattle.id_choice.specs.Runs.{AddsAll, AreThoseOfRuns, HasNothingFrom, HasNothingUpTo, IsFirstFrom, IsLastUpTo, LosesAll, LosesOne};

    /// No number. It allocates nothing before the first `add`.
    pub fn new(alloc: Global) -> Runs
        ensures { result ≡ [] }
    {
        Runs {
            runs: BTreeMap::new(alloc),
        }
    }

    /// The numbers of the runs of a list, which may come in any order, and may meet. They are sorted
    /// first, as runs in their order cost little more than a push each.
    pub fn of(alloc: Global, runs: Vec<Run>) -> Result<Runs, AllocError>
        requires { All (λ run. run.first ≤ run.last) runs.items }
        ensures { IfOk result (AreThoseOfRuns runs.items) }
    {
        let mut sorted = runs;
        sorted.sort_unstable_by_key(|run| run.first);
        let mut numbers = Runs::new(alloc);
        'runs: for run in &sorted {
            numbers.add(run.first, run.last)?;
        }
        Ok(numbers)
    }

    /// Adds the numbers from the first to the last, of which some may be there already. At
    /// `AllocError` the set is as before.
    pub fn add(&mut self, first: u32, last: u32) -> Result<(), AllocError>
        requires { first ≤ last }
        ensures added { OnOk result (AddsAll self.old first last self.new) }
        ensures unchanged { OnErr result (self.new ≡ self.old) }
    {
        let begin = begin_of(&self.runs, first);
        let end = end_of(&self.runs, last);
        self.runs.insert(begin, end)?;
        remove_behind(&mut self.runs, begin, end);
        Ok(())
    }

    /// Takes the number out, which may be missing. At `AllocError` the set is as before.
    pub fn remove(&mut self, number: u32) -> Result<(), AllocError>
        ensures removed { OnOk result (LosesOne self.old number self.new) }
        ensures unchanged { OnErr result (self.new ≡ self.old) }
    {
        self.remove_all(number, number)
    }

    /// Takes the numbers from the first to the last out, of which some may be missing. What the runs
    /// that hold them have before the first and behind the last stays. At `AllocError` the set is as
    /// before.
    pub fn remove_all(&mut self, first: u32, last: u32) -> Result<(), AllocError>
        requires { first ≤ last }
        ensures removed { OnOk result (LosesAll self.old first last self.new) }
        ensures unchanged { OnErr result (self.new ≡ self.old) }
    {
        // this comes first, as it alone may want memory
        keep_behind(&mut self.runs, last)?;
        end_before(&mut self.runs, first);
        remove_behind(&mut self.runs, first, last);
        Ok(())
    }

    /// Whether the number is there.
    pub fn holds(&self, number: u32) -> bool
        ensures { result ≡ is_used self.now number }
    {
        match self.last_up_to(number) {
            Some(run) => number <= run.last,
            None => false,
        }
    }

    /// The last run that begins at the number or before it. Neither the number before a run nor the
    /// one behind it is there.
    pub fn last_up_to(&self, number: u32) -> Option<Run>
        ensures { MatchOption result (HasNothingUpTo self.now number)
            (IsLastUpTo self.now number) }
    {
        run_up_to(&self.runs, number)
    }

    /// The first run that ends at the number or behind it.
    pub fn first_from(&self, number: u32) -> Option<Run>
        ensures { MatchOption result (HasNothingFrom self.now number)
            (IsFirstFrom self.now number) }
    {
        match run_up_to(&self.runs, number) {
            Some(run) if number <= run.last => Some(run),
            _ => run_from(&self.runs, number),
        }
    }
}

// The last run that begins at a number or before it. It is mostly the last of all, as IDs mostly
// come in their order.
fn run_up_to(runs: &BTreeMap<u32, u32>, number: u32) -> Option<Run>
    ensures { MatchOption result (HasNoneUpTo runs.now number) (HasUpTo runs.now number) }
{
    match runs.last_key_value() {
        Some((first, last)) if *first <= number => Some(Run {
            first: *first,
            last: *last,
        }),
        _ => run_before(runs, number),
    }
}

// The same, of all runs.
fn run_before(runs: &BTreeMap<u32, u32>, number: u32) -> Option<Run>
    ensures { MatchOption result (HasNoneUpTo runs.now number) (HasUpTo runs.now number) }
{
    let (first, last) = runs.range(..=number).next_back()?;
    Some(Run {
        first: *first,
        last: *last,
    })
}

// The first run that begins at a number or behind it. There is mostly none, as IDs mostly come in
// their order.
fn run_from(runs: &BTreeMap<u32, u32>, number: u32) -> Option<Run>
    ensures { MatchOption result (HasNoneFrom runs.now number) (HasFrom runs.now number) }
{
    match runs.last_key_value() {
        Some((first, _)) if *first < number => None,
        _ => run_behind(runs, number),
    }
}

// The same, of all runs.
fn run_behind(runs: &BTreeMap<u32, u32>, number: u32) -> Option<Run>
    ensures { MatchOption result (HasNoneFrom runs.now number) (HasFrom runs.now number) }
{
    let (first, last) = runs.range(number..).next()?;
    Some(Run {
        first: *first,
        last: *last,
    })
}

// Where the run begins that numbers from this one on become part of.
fn begin_of(runs: &BTreeMap<u32, u32>, number: u32) -> u32
    requires { IsRunMap runs.now }
    ensures { BeginsAt runs.now number result }
{
    match run_up_to(runs, number) {
        Some(run) if number <= run.last.saturating_add(1) => run.first,
        _ => number,
    }
}

// Where the run ends that numbers up to this one become part of.
fn end_of(runs: &BTreeMap<u32, u32>, number: u32) -> u32
    requires { IsRunMap runs.now }
    ensures { EndsAt runs.now number result }
{
    match run_up_to(runs, number.saturating_add(1)) {
        Some(run) => number.max(run.last),
        None => number,
    }
}

// Where a run goes on behind a number, lets a run begin behind the number that ends where it ends.
fn keep_behind(runs: &mut BTreeMap<u32, u32>, number: u32) -> Result<(), AllocError>
    requires { IsRunMap runs.old }
    ensures kept { OnOk result (KeepsBehind runs.old runs.new number) }
    ensures unchanged { OnErr result (IsUnchanged runs.old runs.new) }
{
    match run_up_to(runs, number) {
        Some(run) if number < run.last => {
            runs.insert(number + 1, run.last)?;
            Ok(())
        }
        _ => Ok(()),
    }
}

// Lets the runs that begin up to a number end before it.
fn end_before(runs: &mut BTreeMap<u32, u32>, number: u32)
    requires { AreApartUpTo runs.old number }
    ensures { EndsBefore runs.old runs.new number }
{
    match run_up_to(runs, number) {
        Some(run) if number <= run.last => cut(runs, run.first, number),
        _ => {}
    }
}

// Lets a run that is there end before a number; one that begins there goes.
fn cut(runs: &mut BTreeMap<u32, u32>, first: u32, number: u32)
    requires { IsSome (get nat_cmp runs.old first) }
    ensures updated { Updates nat_cmp runs.old runs.new first (last_before first number) }
    ensures ordered { IsOrdered nat_cmp runs.new }
{
    if first < number {
        // its first number is there, so this takes no memory
        let _replaced = runs.insert(first, number - 1);
    } else {
        runs.remove(&first);
    }
}

// Removes the runs that begin behind a number, up to an end.
fn remove_behind(runs: &mut BTreeMap<u32, u32>, number: u32, end: u32)
    requires { IsOrdered nat_cmp runs.old }
    ensures { IsWithoutRuns runs.old runs.new number end }
{
    'runs: while let Some(first) = first_behind(runs, number, end) {
        runs.remove(&first);
    }
}

// Where the first run begins that begins behind a number, up to an end.
fn first_behind(runs: &BTreeMap<u32, u32>, number: u32, end: u32) -> Option<u32>
    ensures { MatchOption result (HasNoneBehind runs.now number end)
        (HasBehind runs.now number end) }
{
    if number >= end {
        return None;
    }
    let run = run_from(runs, number + 1)?;
    if run.first > end {
        return None;
    }
    Some(run.first)
}
