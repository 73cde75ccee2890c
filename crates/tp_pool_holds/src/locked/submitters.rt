//! What submitters do in one hold of the lock.
ghost use Rattle.std.specs.Prelude.{◌≡◌, ◌⊎◌, ◌<◌, IfOk, IfErr, OnOk, OnErr};
ghost use Rattle.tp_machine_state.specs.Payloads.{Keeps, PutsIn};
ghost use Rattle.tp_book.specs.BookView.{Advances, IsDenied, IsUnmoved};
ghost use Rattle.tp_pool_holds.specs.Holds.{Holds};
ghost use Rattle.tp_pool_holds.specs.Passes.{AddsNone, entry_of};
ghost use Rattle.tp_pool_holds.specs.Rosters.{start_after, telling};
ghost use Rattle.tp_pool_holds.specs.Roused.{IsRoused};
ghost use Rattle.tp_pool_holds.specs.Steps.{Makes, Refused};

use super::{Locked, rouse};
use crate::names::PoolNaming;
use crate::roster::Start;
use crate::tasks::Payload;
use tp_book::passes::Pass;
use tp_book::payers::Payer;
use tp_glance::glance::Glance;
use tp_machine::machine::releases::Keeper;
use tp_machine::typed::Plain;
use tp_machine::typed::submitters::Submit;
use tp_machine::typed::workers::Open;
use tp_protocols::flags::CancelFlag;
use tp_record::entries::{Ask, Did, Looked, Opened};
use tp_tasks::spaces::Space;
use tp_types::ids::{SlotId, TaskId};
use tp_types::refusals::PoolError;

// What the thread of a slot is told after its opening.
fn start_of(opened: &Result<Opened, PoolError>) -> Start
    ensures { result ≡ start_after opened.now }
{
    match opened {
        Ok(Opened::Live) => Start::Live,
        _ => Start::GivenUp,
    }
}

impl<G: PoolNaming, J: Drop, R: Keeper> Locked<G, J, R> {
    /// Submits a task. Where there are fewer flags than callers, one is made, should its caller run it. NoMemory (4) or
    /// BookFull (5), with the task.
    #[inline(always)]
    pub fn submit(
        &mut self,
        step: Submit,
        task: Payload<J>,
        glance: &Glance<G>,
        pass: &mut Pass<G>,
    ) -> Result<(TaskId, Looked), (PoolError, Payload<J>)>
        requires room { 0 < pass.old.room }
        ensures holds { IfOk result (λ x. Holds R.RECEIPTS self.old self.new pass.old.number (Ask.Submit step.kind step.priority) (Did.Submit x.0 step.kind step.priority x.1) (λ old new. PutsIn old new x.0.0 step.promise task)) }
        ensures makes { IfOk result (λ x. Makes J (R.terms G.config) pass.old.number pass.old.front (Ask.Submit step.kind step.priority) (Did.Submit x.0 step.kind step.priority x.1) (λ old new. PutsIn old new x.0.0 step.promise task) pass.new.front) }
        ensures paid { IfOk result (λ x. ⟦<Pass<G> as Payer<G>>⟧.paid pass.old (entry_of pass.old.number (Ask.Submit step.kind step.priority) (Did.Submit x.0 step.kind step.priority x.1)) pass.new) }
        ensures refused { IfErr result (λ r. (r.0 ≡ PoolError.NoMemory) ⊎ Refused J R.RECEIPTS (R.terms G.config) pass.old.front (Ask.Submit step.kind step.priority) r.0 pass.new.front) }
        ensures denied { IfErr result (λ r. (r.0 ≡ PoolError.NoMemory) ⊎ IsDenied R.RECEIPTS self.old.book (Ask.Submit step.kind step.priority) r.0) }
        ensures stands { OnErr result (IsUnmoved self.old.book self.new.book × (self.new.waking ≡ self.old.waking)) }
        ensures threads { self.new.roster ≡ self.old.roster }
        ensures returned { IfErr result (λ r. r.1 ≡ task) }
        ensures unchanged { OnErr result (AddsNone pass.old pass.new) }
    {
        let Locked {
            book,
            flags,
            waking,
            roster: _,
        } = self;
        if let Err(error) = flags.reserve(book.callers() as usize) {
            return Err((error, task));
        }
        book.law_is_balanced();
        let (t, look) = match book.step_by(step, task, glance, pass) {
            Ok(submitted) => submitted,
            Err(refused) => return Err(refused),
        };
        rouse(
            book,
            waking,
            &Ask::Submit(step.kind, step.priority),
            &Did::Submit(t, step.kind, step.priority, look),
        );
        Ok((t, look))
    }

    /// The flag of a task that its caller runs, as the job has it. The other one is for the task that a caller runs next.
    pub fn flag_at_caller(&mut self, t: TaskId, next: Option<CancelFlag>) -> Option<CancelFlag>
        ensures { self.new ≡ self.old }
    {
        if let Some(flag) = next {
            self.flags.add_ready(flag);
        }
        self.flags.at_caller(t)
    }

    /// For how many homes of tasks a `Space` is to be made before the next submission: `Machine::wants_space`.
    #[inline(always)]
    pub fn wants_space(&self) -> usize {
        self.book.wants_space()
    }

    /// Has the tasks lie in this memory: `Machine::take_space`.
    pub fn take_space(&mut self, space: &mut Space<Payload<J>>)
        ensures book { IsUnmoved self.old.book self.new.book }
        ensures rest { self.new ≡ record self.old { book = self.new.book } }
    {
        self.book.take_space(space);
    }

    /// A worker was made for this slot: the step `open`. The thread of the slot hears what became of it. After a `fail` no thread
    /// waits to hear, so that is a step like others.
    pub fn open<A: Payer<G>>(
        &mut self,
        w: SlotId,
        glance: &Glance<G>,
        pass: &mut A,
    ) -> Result<Opened, PoolError>
        requires ready { A.ready pass.old (Ask.Open w) }
        ensures made { IfOk result (λ x. Advances self.old.book self.new.book (A.number pass.old) (Ask.Open w) (Did.Open w x) Keeps) }
        ensures roused { IfOk result (λ x. IsRoused self.new.book self.old.waking self.new.waking (Ask.Open w) (Did.Open w x)) }
        ensures denied { IfErr result (IsDenied R.RECEIPTS self.old.book (Ask.Open w)) }
        ensures stands { OnErr result (IsUnmoved self.old.book self.new.book × (self.new.waking ≡ self.old.waking)) }
        ensures told { self.new.roster ≡ telling w.0 (start_after result) self.old.roster }
        ensures makes { IfOk result (λ x. Makes J (R.terms G.config) (A.number pass.old) (A.front pass.old) (Ask.Open w) (Did.Open w x) Keeps (A.front pass.new)) }
        ensures paid { IfOk result (λ x. A.paid pass.old (entry_of (A.number pass.old) (Ask.Open w) (Did.Open w x)) pass.new) }
        ensures refused { IfErr result (λ e. Refused J R.RECEIPTS (R.terms G.config) (A.front pass.old) (Ask.Open w) e (A.front pass.new)) }
        ensures shown { OnErr result (A.shown pass.old pass.new) }
        ensures number { A.number pass.new ≡ A.number pass.old }
        ensures front { A.front pass.new ≡ self.new.book.history }
    {
        let opened = self.step(Plain(Open(w)), glance, pass);
        self.roster.tell(w, start_of(&opened));
        opened
    }
}
