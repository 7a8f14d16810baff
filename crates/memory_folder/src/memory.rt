// A folder in memory, which tells its history: its files and events, the tokens that it gives and
// tells alive, the calls that are to fail, and what it was asked. Its calls are in memory_calls.rt.
ghost use Rattle.std.specs.Prelude.{◌≡◌, ◌↔◌, [], Some, None, All, IfOk, IfErr, IsTrue, OnOk, OnErr, false, true};
ghost use Rattle.std.specs.Option.{option_copied};
ghost use Rattle.acct_outside.specs.Folder.{IsFolder};
ghost use Rattle.acct_outside.specs.Life.{is_running};
ghost use Rattle.acct_outside.specs.Calls.{died};
ghost use Rattle.acct_outside.specs.Faults.{CountsEach, CountsFailure};
ghost use Rattle.acct_outside.specs.Tokens.{IsToken};
ghost use Rattle.memory_folder.specs.Store.{folder_with};
ghost use Rattle.acct_outside.specs.NamedCalls.{IsLaterCall, call_of};
ghost use Rattle.memory_folder.specs.Events.{MayFail, actual_effect, begin_event, command_of, effect_in, has_token};
ghost use Rattle.acct_outside.specs.Contract.{IsName};
ghost use Rattle.memory_folder.specs.Plan.{effect_due, planned_effect};

use crate::Effect;
use crate::event::{Answer, Command, Outcome};
use crate::log::Log;
use crate::mishap::{Mishap, Mishaps};
use crate::tokens::{is_among, numbered_token};
use acct_outside::{Call, FolderFault, Journal, Name, Token, Verdict};
use acct_text::Bytes;
use std::alloc::{AllocError, Global};

/// A folder in memory. It tells its history, and admits no event of another session. Its tokens are
/// `m1`, `m2` and so on, each the first that no lock names at first, no session has had and no
/// outsider has.
#[derive(Drop)]
pub struct MemoryFolder {
    pub(crate) alloc: Global,
    pub(crate) log: Log,
    pub(crate) alive: Vec<Token>,
    pub(crate) mishaps: Mishaps,
    pub(crate) journal: Journal,
}

impl MemoryFolder {
    ghost use Rattle.acct_outside.specs.Journal.{Settles};
    ghost use Rattle.memory_folder.specs.Logged.{past_in, with_event, folder_after};
    ghost use Rattle.memory_folder.specs.Memory.{CountsFault, FailsAsPlanned, FailsWith, IsUncounted, HasRunning, TellsAct, TellsFailure, alive_of, call_count, faults_of, journal_of, past_of, fault_plan};
    ghost use Rattle.memory_folder.specs.NewTokens.{IsFirstUnused, IsUnused};

    /// A folder with these files, with tokens of outsiders that it tells alive, and with calls that
    /// are to fail. A later file of a name replaces an earlier one.
    pub fn new(
        alloc: Global,
        contents: Vec<(Name, Bytes)>,
        alive: Vec<Token>,
        plan: Vec<Mishap>,
    ) -> Result<Self, AllocError>
        requires { All (λ file. IsName file.0) contents.items }
        ensures past { IfOk result (λ folder. past_of folder
            ≡ record { first = folder_with contents.items; history = [] }) }
        ensures first { IfOk result (λ folder. IsFolder (past_of folder).first) }
        ensures faults { IfOk result (λ folder. faults_of folder ≡ 0) }
        ensures calls { IfOk result (λ folder. call_count folder ≡ 0) }
        ensures plan { IfOk result (λ folder. fault_plan folder ≡ plan.items) }
        ensures alive { IfOk result (λ folder. alive_of folder ≡ alive.items) }
        ensures journal { IfOk result (λ folder. journal_of folder ≡ []) }
    {
        Ok(MemoryFolder {
            alloc,
            log: Log::new(alloc, contents)?,
            alive,
            mishaps: Mishaps {
                plan,
                calls: 0,
                faults: 0,
            },
            journal: Journal::new(),
        })
    }

    /// What stands at the name, and None exactly where nothing does.
    pub fn file(&self, name: Name) -> Option<&Bytes>
        ensures { option_copied result ≡ (folder_after (past_of self.now)).file name }
    {
        self.log.store.get(name)
    }

    /// Whether the session has begun, and has neither died nor answered.
    pub fn runs(&self, token: &Token) -> bool
        ensures { result ≡ is_running token.now (past_of self.now).history }
    {
        self.log.runs(token)
    }

    /// Records that the session died within the call, which did this as far as it can have.
    pub fn die(&mut self, by: &Token, call: Call, effect: Effect) -> Result<(), AllocError>
        requires running { HasRunning self.old by.now }
        requires call { IsLaterCall call }
        ensures told { OnOk result (past_of self.new ≡ with_event
            (record {
              token = by.now;
              call = call_of call;
              result = died (actual_effect (folder_after (past_of self.old)) (call_of call)
                  (effect_in effect));
            })
            (past_of self.old)) }
        ensures err { OnErr result (past_of self.new ≡ past_of self.old) }
        ensures faults { faults_of self.new ≡ faults_of self.old }
        ensures counts { IsUncounted self.old self.new }
        ensures journal { journal_of self.new ≡ journal_of self.old }
    {
        let effect = self.log.store.actual(&call, effect);
        self.log.record(self.alloc, by, call, Outcome::Died(effect))
    }

    // Gives the call back, unless it is to fail: then it is recorded with what it did.
    pub(crate) fn pass(&mut self, by: &Token, call: Call) -> Result<Call, FolderFault>
        requires { MayFail call }
        ensures kept { IfOk result (λ kept. kept ≡ call) }
        ensures same { OnOk result (self.new ≡ self.old) }
        ensures told { IfErr result (TellsFailure self.old self.new by.now (call_of call)) }
        ensures planned { FailsAsPlanned self.old self.new by.now (call_of call) result }
        ensures faults { CountsFailure FolderFault.Failed (faults_of self.old)
            (faults_of self.new) result }
        ensures each { CountsEach FolderFault.Failed (faults_of self.old)
            (faults_of self.new) result }
        ensures counts { IsUncounted self.old self.new }
        ensures journal { journal_of self.new ≡ journal_of self.old }
    {
        match self.due(&call) {
            Ok(None) => Ok(call),
            Ok(Some(effect)) => Err(self.fail(by, call, effect)),
            Err(_) => Err(FolderFault::Memory),
        }
    }

    // What the call that was counted last does as it fails, and None where it isn't to fail.
    fn due(&self, call: &Call) -> Result<Option<Effect>, AllocError>
        requires { MayFail call.now }
        ensures { IfOk result (λ due. due ≡ effect_due (folder_after (past_of self.now))
            (call_of call.now) (planned_effect (call_count self.now) (fault_plan self.now))) }
    {
        if self.log.store.refuses(call) {
            return Ok(Some(Effect::Nothing));
        }
        self.mishaps.planned()
    }

    // Records that the call failed, with what it did as far as it can have.
    fn fail(&mut self, by: &Token, call: Call, effect: Effect) -> FolderFault
        requires { MayFail call }
        ensures told { TellsFailure self.old self.new by.now (call_of call) result }
        ensures effect { result ≡ FolderFault.Failed
            → FailsWith self.old self.new by.now (call_of call) effect }
        ensures faults { CountsFault self.old self.new result }
        ensures counts { IsUncounted self.old self.new }
        ensures journal { journal_of self.new ≡ journal_of self.old }
    {
        let effect = self.log.store.actual(&call, effect);
        match self
            .log
            .record(self.alloc, by, call, Outcome::Failed(effect))
        {
            Ok(()) => {
                self.mishaps.fail();
                FolderFault::Failed
            }
            Err(_) => FolderFault::Memory,
        }
    }

    // Records that a begin failed.
    pub(crate) fn fail_begin(&mut self, command: Command) -> FolderFault
        ensures failed { result ≡ FolderFault.Failed → past_of self.new
            ≡ with_event (begin_event None (command_of command)) (past_of self.old) }
        ensures memory { result ≡ FolderFault.Memory → past_of self.new ≡ past_of self.old }
        ensures faults { CountsFault self.old self.new result }
        ensures counts { IsUncounted self.old self.new }
        ensures journal { journal_of self.new ≡ journal_of self.old }
    {
        match self.log.record_failed_begin(command) {
            Ok(()) => {
                self.mishaps.fail();
                FolderFault::Failed
            }
            Err(_) => FolderFault::Memory,
        }
    }

    // Begins a session with the first token that is unused, and notes that this was done.
    pub(crate) fn start(&mut self, command: Command) -> Result<Token, FolderFault>
        ensures ok { IfOk result (λ token. past_of self.new
            ≡ with_event (begin_event (Some token) (command_of command)) (past_of self.old)) }
        ensures token { IfOk result (IsFirstUnused (past_of self.old) (alive_of self.old)) }
        ensures is_token { IfOk result IsToken }
        ensures memory { IfErr result (λ fault. fault ≡ FolderFault.Memory) }
        ensures same { OnErr result (past_of self.new ≡ past_of self.old) }
        ensures faults { faults_of self.new ≡ faults_of self.old }
        ensures counts { IsUncounted self.old self.new }
        ensures settles { Settles (journal_of self.old) (journal_of self.new) result }
    {
        let given = self.fresh()?;
        let token = given.copy()?;
        self.log.begin(given, command)?;
        self.journal.done();
        Ok(token)
    }

    // Records and notes that the call was done, or records that it failed where it is to fail.
    pub(crate) fn act(&mut self, by: &Token, call: Call) -> Result<(), FolderFault>
        requires { MayFail call }
        ensures told { TellsAct self.old self.new by.now call result }
        ensures planned { FailsAsPlanned self.old self.new by.now (call_of call) result }
        ensures faults { CountsFailure FolderFault.Failed (faults_of self.old)
            (faults_of self.new) result }
        ensures each { CountsEach FolderFault.Failed (faults_of self.old)
            (faults_of self.new) result }
        ensures counts { IsUncounted self.old self.new }
        ensures settles { Settles (journal_of self.old) (journal_of self.new) result }
    {
        let call = self.pass(by, call)?;
        self.log
            .record(self.alloc, by, call, Outcome::Done(Answer::Empty))?;
        self.journal.done();
        Ok(())
    }

    // Dead of a session that neither runs nor is told alive.
    pub(crate) fn judge(&self, token: &Token) -> Verdict
        ensures { (result ≡ Verdict.Dead)
            ↔ ((is_running token.now (past_of self.now).history ≡ false)
            × (has_token token.now (alive_of self.now) ≡ false)) }
    {
        if self.log.runs(token) || is_among(&self.alive, token) {
            Verdict::Alive
        } else {
            Verdict::Dead
        }
    }

    // The first of m1, m2 and so on that is unused.
    fn fresh(&self) -> Result<Token, AllocError>
        ensures { IfOk result (IsFirstUnused (past_of self.now) (alive_of self.now)) }
    {
        for number in 1..u64::MAX {
            let token = numbered_token(self.alloc, number)?;
            if self.is_unused(&token)? {
                return Ok(token);
            }
        }
        Err(AllocError)
    }

    // Whether no lock names the token at first, no event has it, and no outsider.
    fn is_unused(&self, token: &Token) -> Result<bool, AllocError>
        ensures { IfOk result (λ unused. IsTrue unused
            ↔ IsUnused (past_of self.now) (alive_of self.now) token.now) }
    {
        let names = self.log.first.names(self.alloc, token)?;
        Ok(!names && !self.log.knows(token) && !is_among(&self.alive, token))
    }
}
