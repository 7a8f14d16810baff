// What an event does to what stands in a folder in memory, and which effects a call can have had.
ghost use Rattle.std.specs.Prelude.{◌≡◌, OnOk, OnErr};
ghost use Rattle.acct_outside.specs.Calls.{changed_by, happened, left};
ghost use Rattle.acct_outside.specs.History.{after_event};
ghost use Rattle.acct_outside.specs.Tokens.{Token as TokenText};
ghost use Rattle.acct_outside.specs.NamedCalls.{IsLaterCall, call_of};
ghost use Rattle.memory_folder.specs.Events.{actual_effect, answers_exists, call_event, effect_in, may_happen, may_leave};
ghost use Rattle.memory_folder.specs.Plan.{is_refused};

use crate::Effect;
use crate::event::{Answer, Outcome};
use crate::store::Store;
use crate::tokens::held_text;
use acct_outside::{Call, Created, Name, Token};
use acct_text::Bytes;
use std::alloc::{AllocError, Global};

impl Store {
    ghost use Rattle.memory_folder.specs.Stored.{folder_in};

    /// Does what the call did by its outcome. At want of memory all stands as before.
    pub(crate) fn apply(
        &mut self,
        alloc: Global,
        by: &Token,
        call: &Call,
        outcome: &Outcome,
    ) -> Result<(), AllocError>
        requires { IsLaterCall call.now }
        ensures ok { OnOk result (folder_in self.new
            ≡ after_event (call_event by.now call.now outcome.now) (folder_in self.old)) }
        ensures err { OnErr result (folder_in self.new ≡ folder_in self.old) }
    {
        match outcome {
            Outcome::Done(answer) if answers_exists(call, answer) => Ok(()),
            Outcome::Done(_) => self.complete(alloc, by, call),
            Outcome::Failed(effect) => self.leave(alloc, by, call, effect),
            Outcome::Died(effect) => self.leave(alloc, by, call, effect),
        }
    }

    // What a call with this effect has left.
    fn leave(
        &mut self,
        alloc: Global,
        by: &Token,
        call: &Call,
        effect: &Effect,
    ) -> Result<(), AllocError>
        requires { IsLaterCall call.now }
        ensures ok { OnOk result (folder_in self.new
            ≡ changed_by by.now (call_of call.now) (effect_in effect.now) (folder_in self.old)) }
        ensures err { OnErr result (folder_in self.new ≡ folder_in self.old) }
    {
        match effect {
            Effect::Happened => self.complete(alloc, by, call),
            Effect::Nothing => Ok(()),
            Effect::Left(content) => self.leave_content(call, content),
        }
    }

    // A write or an append that left these bytes, or nothing; another call leaves none.
    fn leave_content(&mut self, call: &Call, content: &Option<Bytes>) -> Result<(), AllocError>
        requires { IsLaterCall call.now }
        ensures ok { OnOk result ((token : TokenText) → folder_in self.new
            ≡ changed_by token (call_of call.now) (left content.now) (folder_in self.old)) }
        ensures err { OnErr result (folder_in self.new ≡ folder_in self.old) }
    {
        match (call, content) {
            (Call::Write(name, _) | Call::Append(name, _), Some(bytes)) => {
                self.put(*name, bytes.copy()?)
            }
            (Call::Write(name, _) | Call::Append(name, _), None) => Ok(self.remove(*name)),
            _ => Ok(()),
        }
    }

    // A call that happened.
    fn complete(&mut self, alloc: Global, by: &Token, call: &Call) -> Result<(), AllocError>
        requires { IsLaterCall call.now }
        ensures ok { OnOk result (folder_in self.new
            ≡ changed_by by.now (call_of call.now) happened (folder_in self.old)) }
        ensures err { OnErr result (folder_in self.new ≡ folder_in self.old) }
    {
        match call {
            Call::Create(number) => self.put(Name::Lock(*number), held_text(alloc, by)?),
            Call::Write(name, bytes) => self.put(*name, bytes.copy()?),
            Call::Append(name, piece) => self.append(*name, piece),
            Call::Rename(from, to) => self.rename(*from, *to),
            Call::Remove(name) => Ok(self.remove(*name)),
            _ => Ok(()),
        }
    }

    /// The effect of a call that fails: nothing, where it can't have had the planned one.
    pub(crate) fn actual(&self, call: &Call, effect: Effect) -> Effect
        ensures { effect_in result
            ≡ actual_effect (folder_in self.now) (call_of call.now) (effect_in effect) }
    {
        match effect {
            Effect::Happened if !self.may_happen(call) => Effect::Nothing,
            Effect::Left(_) if !may_leave(call) => Effect::Nothing,
            effect => effect,
        }
    }

    /// Whether the call fails here by itself: an append whose name is absent, or a rename whose source
    /// is.
    pub(crate) fn refuses(&self, call: &Call) -> bool
        ensures { result ≡ is_refused (folder_in self.now) (call_of call.now) }
    {
        match call {
            Call::Append(name, _) => !self.stands(*name),
            Call::Rename(from, _) => !self.stands(*from),
            _ => false,
        }
    }

    // Whether the call can have happened here.
    fn may_happen(&self, call: &Call) -> bool
        ensures { result ≡ may_happen (folder_in self.now) (call_of call.now) }
    {
        match call {
            Call::Begin => false,
            Call::Create(number) => !self.stands(Name::Lock(*number)),
            Call::Append(name, _) => self.stands(*name),
            Call::Rename(from, _) => self.stands(*from),
            _ => true,
        }
    }
}

// Whether the call can have left other bytes than its own.
fn may_leave(call: &Call) -> bool
    ensures { result ≡ may_leave (call_of call.now) }
{
    matches!(call, Call::Write(_, _) | Call::Append(_, _))
}

// Whether a create answered that its lock stands: then it did nothing.
fn answers_exists(call: &Call, answer: &Answer) -> bool
    ensures { result ≡ answers_exists (call_of call.now) answer.now }
{
    matches!(
        (call, answer),
        (Call::Create(_), Answer::Created(Created::Exists))
    )
}
