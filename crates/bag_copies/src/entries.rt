//! Entries and reads on copies of pools and flags.

ghost use Rattle.std.specs.Prelude.{◌≡◌, ◌<◌, ◌^◌, ◌-◌, ◌↔◌, ◌∷◌, [], IfOk, IfErr, None, OnOk, OnErr, IsTrue, false};
ghost use Rattle.value_core.specs.History.{object_at};
ghost use Rattle.bag_performer.specs.Fitting.{FitsArgs};
ghost use Rattle.guard_queue.specs.Settles.{lines_of, settled, tried_on};
ghost use Rattle.object_manager.specs.After.{acted, after, lines_after, opening_copies};
ghost use Rattle.object_manager.specs.Applies.{Applies, AppliesSingle};
ghost use Rattle.object_manager.specs.Singles.{IsCounted, IsMake, after_passed, after_single, lines_single};
ghost use Rattle.bag_performer.specs.Bags.{bag_performs};
ghost use Rattle.object_manager.specs.declared.copies.ApplyError.TheVariants.{NoMemory as Without};
ghost use Rattle.bag_copies.specs.declared.entries.Refused.TheVariants.{Copies as OfCopies};
ghost use Rattle.bag_copies.specs.Fits.{BagArgs, FitsAll, HasObject, IsEntryRefusal, IsPassRefusal, IsReadRefusal, IsSendRefusal, IsSingleRefusal};

use bag_performer::Bags;
use guard_queue::{Answered, Objects, Queue, Suspended, settle};
use object_manager::{ApplyError, Copies, View, copies_law};
use orca_base::{KindNo, NoMemory, ObjectId, OpNo};
use std::alloc::Global;
use std::marker::Model;
use value_core::{Action, Message, Parts, Tried};

/// Why an entry, a call on a single object or a read wasn't done.
#[derive(Clone, Copy, Debug, PartialEq, Eq)]
pub enum Refused {
    /// A call's object doesn't exist by this type, or its arguments don't fit the operation, or a make's object exists, or the
    /// action is none that was asked for.
    Object,
    /// No more entries can be counted.
    Entries,
    /// The copies refused it.
    Copies { why: ApplyError },
}

impl From<ApplyError> for Refused {
    ghost from_gives = { λ why r. r ≡ OfCopies why };

    fn from(why: ApplyError) -> Refused {
        Refused::Copies { why }
    }
}

impl From<NoMemory> for Refused {
    ghost from_gives = { λ _ r. r ≡ OfCopies Without };

    fn from(_: NoMemory) -> Refused {
        Refused::Copies {
            why: ApplyError::NoMemory,
        }
    }
}

/// Copies of pools and flags on which all fits and each suspended call is blocked, so that whatever comes can be tested and done.
#[derive(Drop)]
pub struct BagCopies {
    copies: Copies,
}

impl Model for BagCopies {
    ghost use Rattle.object_manager.specs.After.{Copied};

    ghost Value = { Copied };

    ghost use Rattle.std.specs.Coded.{codes};
    ghost use Rattle.value_core.specs.Code.{data_code};

    ghost coded = { Prim.hlevel (codes, data_code) };

    ghost view = { λ b. b.copies };

    ghost use Rattle.bag_copies.specs.Fits.{FitsAll};

    ghost invariant = { λ b. FitsAll b.copies };
}

impl BagCopies {
    /// Copies before the first entry.
    pub fn opening(alloc: Global) -> Result<BagCopies, NoMemory>
        ensures { IfOk result (λ c. c ≡ opening_copies) }
    {
        copies_law(&Bags);
        Ok(BagCopies {
            copies: Copies::opening(alloc)?,
        })
    }

    /// The copies.
    pub fn as_copies(&self) -> &Copies
        ensures same { result.now ≡ self.now }
        ensures fits { FitsAll result.now }
    {
        &self.copies
    }

    /// Equal copies.
    pub fn copy(&self, alloc: Global) -> Result<BagCopies, NoMemory>
        ensures { IfOk result (λ c. c ≡ self.now) }
    {
        Ok(BagCopies {
            copies: self.copies.copy(alloc)?,
        })
    }

    /// Copies that are made from the state of these, as they come to a member that joins late: equal ones. Object comes where a
    /// single object was counted.
    pub fn sent(&self, alloc: Global) -> Result<BagCopies, Refused>
        ensures same { IfOk result (λ c. c ≡ self.now) }
        ensures refused { IfErr result (IsSendRefusal self.now) }
    {
        Ok(BagCopies {
            copies: sent_on(alloc, &self.copies)?,
        })
    }

    /// A snapshot of the replicated objects.
    pub fn view(&self, alloc: Global) -> Result<BagView, NoMemory>
        ensures { IfOk result (λ v. v ≡ record { objects = self.now.objects; place = self.now.applied }) }
    {
        Ok(BagView {
            view: self.copies.view(alloc)?,
        })
    }

    /// One more entry is applied, where it may be.
    pub fn entry(&mut self, alloc: Global, message: &Message) -> Result<Vec<Answered>, Refused>
        ensures after { OnOk result (self.new ≡ after bag_performs self.old message.now) }
        ensures lines { IfOk result (λ all. lines_of all.items ≡ lines_after bag_performs self.old message.now) }
        ensures applies { OnOk result (Applies BagArgs self.old message.now.action) }
        ensures refused { IfErr result (IsEntryRefusal self.old message.now.action) }
        ensures err { OnErr result (self.new ≡ self.old) }
    {
        if is_full(&self.copies) {
            return Err(Refused::Entries);
        }
        if !applies(&self.copies, &message.action) {
            return Err(Refused::Object);
        }
        Ok(self.copies.apply(alloc, &Bags, message)?)
    }

    /// One more entry is applied, which makes a single object, where it may be. Its state is kept here where `keeps` is true.
    pub fn pass(
        &mut self,
        alloc: Global,
        message: &Message,
        keeps: bool,
    ) -> Result<Vec<Answered>, Refused>
        ensures after { OnOk result (self.new ≡ after_passed bag_performs keeps self.old message.now) }
        ensures lines { IfOk result (λ all. lines_of all.items ≡ (acted bag_performs self.old message.now).lines) }
        ensures make { OnOk result (IsMake message.now.action) }
        ensures applies { OnOk result (Applies BagArgs self.old message.now.action) }
        ensures refused { IfErr result (IsPassRefusal self.old message.now.action) }
        ensures err { OnErr result (self.new ≡ self.old) }
    {
        if is_full(&self.copies) {
            return Err(Refused::Entries);
        }
        if !is_make(&message.action) || !applies(&self.copies, &message.action) {
            return Err(Refused::Object);
        }
        Ok(self.copies.pass_make(alloc, &Bags, message, keeps)?)
    }

    /// A call on a single object that is kept here is tried, where it may be.
    pub fn single(&mut self, alloc: Global, message: &Message) -> Result<Vec<Answered>, Refused>
        ensures after { OnOk result (self.new ≡ after_single bag_performs self.old message.now) }
        ensures lines { IfOk result (λ all. lines_of all.items ≡ lines_single bag_performs self.old message.now) }
        ensures applies { OnOk result (AppliesSingle BagArgs self.old message.now.action) }
        ensures refused { IfErr result (IsSingleRefusal self.old message.now.action) }
        ensures err { OnErr result (self.new ≡ self.old) }
    {
        if !applies_single(&self.copies, &message.action) {
            return Err(Refused::Object);
        }
        Ok(self.copies.call_single(alloc, &Bags, message)?)
    }

    /// What one suspended call does on the copies' objects, in a queue of its own. The copies stay.
    pub fn settle_alone(&self, alloc: Global, call: Suspended) -> Result<Vec<Answered>, Refused>
        ensures lines { IfOk result (λ all. lines_of all.items ≡ (settled bag_performs self.now.objects (call ∷ [])).lines) }
        ensures refused { IfErr result (IsReadRefusal self.now.objects call.kind call.op call.object call.args) }
    {
        settle_on(alloc, &self.copies, call)
    }

    /// What a try of the operation gives on the copies.
    pub fn read(
        &self,
        alloc: Global,
        kind: KindNo,
        op: OpNo,
        object: ObjectId,
        args: &Parts,
    ) -> Result<Tried, Refused>
        ensures tried { IfOk result (λ t. t ≡ tried_on bag_performs self.now.objects kind op object args.now) }
        ensures there { OnOk result (HasObject self.now.objects kind object) }
        ensures refused { IfErr result (IsReadRefusal self.now.objects kind op object args.now) }
    {
        if !has(self.copies.objects(), kind, object) || !Bags::fits(kind, op, args) {
            return Err(Refused::Object);
        }
        Ok(self.copies.read(alloc, &Bags, kind, op, object, args)?)
    }
}

/// A snapshot of copies of pools and flags, on which each object's state fits its type.
#[derive(Drop)]
pub struct BagView {
    view: View,
}

impl Model for BagView {
    ghost use Rattle.object_manager.specs.Viewed.{Viewed};

    ghost Value = { Viewed };

    ghost use Rattle.std.specs.Coded.{codes};
    ghost use Rattle.value_core.specs.Code.{data_code};

    ghost coded = { Prim.hlevel (codes, data_code) };

    ghost view = { λ b. b.view };

    ghost use Rattle.bag_copies.specs.Fits.{ViewFits};

    ghost invariant = { λ b. ViewFits b.view.objects };
}

impl BagView {
    /// The snapshot.
    pub fn as_view(&self) -> &View
        ensures { result.now ≡ self.now }
    {
        &self.view
    }

    /// What a try of the operation gives on the snapshot.
    pub fn read(
        &self,
        alloc: Global,
        kind: KindNo,
        op: OpNo,
        object: ObjectId,
        args: &Parts,
    ) -> Result<Tried, Refused>
        ensures tried { IfOk result (λ t. t ≡ tried_on bag_performs self.now.objects kind op object args.now) }
        ensures there { OnOk result (HasObject self.now.objects kind object) }
        ensures refused { IfErr result (IsReadRefusal self.now.objects kind op object args.now) }
    {
        if !has(self.view.objects(), kind, object) || !Bags::fits(kind, op, args) {
            return Err(Refused::Object);
        }
        Ok(self.view.read(alloc, &Bags, kind, op, object, args)?)
    }
}

// What one suspended call does on the copies' objects, in a queue of its own.
fn settle_on(alloc: Global, copies: &Copies, call: Suspended) -> Result<Vec<Answered>, Refused>
    requires { FitsAll copies.now }
    ensures lines { IfOk result (λ all. lines_of all.items ≡ (settled bag_performs copies.now.objects (call ∷ [])).lines) }
    ensures refused { IfErr result (IsReadRefusal copies.now.objects call.kind call.op call.object call.args) }
{
    if !has(copies.objects(), call.kind, call.object)
        || !Bags::fits(call.kind, call.op, &call.args)
    {
        return Err(Refused::Object);
    }
    let mut objects = copies.objects().copy(alloc)?;
    let mut queue = Queue::new(alloc);
    queue.push(alloc, call)?;
    Ok(settle(alloc, &Bags, &mut objects, &mut queue)?)
}

// Copies that are made from the state of these, where no single object was counted.
fn sent_on(alloc: Global, copies: &Copies) -> Result<Copies, Refused>
    requires { FitsAll copies.now }
    ensures same { IfOk result (λ c. c ≡ copies.now) }
    ensures refused { IfErr result (IsSendRefusal copies.now) }
{
    if copies.has_singles() {
        return Err(Refused::Object);
    }
    copies.whole();
    copies_law(&Bags);
    let state = copies.state(alloc)?;
    Ok(Copies::from_state(alloc, state)?)
}

// Whether no more entries can be counted.
fn is_full(copies: &Copies) -> bool
    ensures full { IsTrue result → copies.now.applied ≡ 2 ^ 64 - 1 }
    ensures room { result ≡ false → copies.now.applied < 2 ^ 64 - 1 }
{
    copies.applied() == u64::MAX
}

// Whether an entry with this action may be applied.
fn applies(copies: &Copies, action: &Action) -> bool
    ensures { IsTrue result ↔ Applies BagArgs copies.now action.now }
{
    match action {
        Action::Make { object, .. } => is_new(copies, *object),
        Action::Call {
            kind,
            op,
            object,
            args,
        } => has(copies.objects(), *kind, *object) && Bags::fits(*kind, *op, args),
        Action::Fork { .. } | Action::Ended | Action::Faulted { .. } => true,
    }
}

// Whether the object is neither replicated nor counted as single.
fn is_new(copies: &Copies, object: ObjectId) -> bool
    ensures { IsTrue result ↔ (object_at copies.now.objects object ≡ None) × (IsCounted copies.now.singles object → ⊥) }
{
    copies.objects().get(object).is_none() && !copies.is_counted(object)
}

// Whether the action makes an object.
fn is_make(action: &Action) -> bool
    ensures { IsTrue result ↔ IsMake action.now }
{
    matches!(action, Action::Make { .. })
}

// Whether the action is a call that may be tried on the single objects that are kept here.
fn applies_single(copies: &Copies, action: &Action) -> bool
    ensures { IsTrue result ↔ AppliesSingle BagArgs copies.now action.now }
{
    match action {
        Action::Call {
            kind,
            op,
            object,
            args,
        } => has(copies.own(), *kind, *object) && Bags::fits(*kind, *op, args),
        Action::Make { .. } | Action::Fork { .. } | Action::Ended | Action::Faulted { .. } => false,
    }
}

// Whether the object exists, by this type.
fn has(objects: &Objects, kind: KindNo, object: ObjectId) -> bool
    ensures { IsTrue result ↔ HasObject objects.now kind object }
{
    match objects.get(object) {
        Some(kept) => kept.kind == kind,
        None => false,
    }
}
