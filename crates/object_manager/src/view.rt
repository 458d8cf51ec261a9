//! Snapshots of copies.

ghost use Rattle.std.specs.Prelude.{◌≡◌, ◌↔◌, IfOk, IsTrue, is_some};
ghost use Rattle.value_core.specs.History.{object_at};
ghost use Rattle.object_manager.specs.Viewed.{ReadFits};
ghost use Rattle.guard_queue.specs.Settles.{tried_on};

use guard_queue::{Objects, try_on};
use orca_base::{KindNo, NoMemory, ObjectId, OpNo};
use std::alloc::Global;
use std::marker::Model;
use value_core::{Parts, Performer, Tried};

/// A snapshot of one member's replicated objects, with the number of entries that its copies had applied. It stays as it is while the
/// copies go on.
#[derive(Drop)]
pub struct View {
    objects: Objects,
    place: u64,
}

impl Model for View {
    ghost use Rattle.object_manager.specs.Viewed.{Viewed};

    ghost Value = { Viewed };

    ghost use Rattle.std.specs.Coded.{codes};
    ghost use Rattle.value_core.specs.Code.{data_code};

    ghost coded = { Prim.hlevel (codes, data_code) };

    ghost view = { λ v. record { objects = v.objects; place = v.place } };
}

impl View {
    pub(crate) fn new(objects: Objects, place: u64) -> View
        ensures { result ≡ record { objects = objects; place = place } }
    {
        View { objects, place }
    }

    /// The number of entries that the copies had applied.
    pub fn place(&self) -> u64
        ensures { result ≡ self.now.place }
    {
        self.place
    }

    /// The objects.
    pub fn objects(&self) -> &Objects
        ensures { result.now ≡ self.now.objects }
    {
        &self.objects
    }

    /// Whether the object is replicated, and was there. A single object is in no snapshot.
    pub fn holds(&self, object: ObjectId) -> bool
        ensures { result ≡ is_some (object_at self.now.objects object) }
    {
        self.objects.get(object).is_some()
    }

    /// An equal snapshot. It costs some counts.
    pub fn copy(&self, alloc: Global) -> Result<View, NoMemory>
        ensures { IfOk result (λ v. v ≡ self.now) }
    {
        Ok(View {
            objects: self.objects.copy(alloc)?,
            place: self.place,
        })
    }

    /// What a try of the operation gives on the snapshot.
    pub fn read<P: Performer>(
        &self,
        alloc: Global,
        performer: &P,
        kind: KindNo,
        op: OpNo,
        object: ObjectId,
        args: &Parts,
    ) -> Result<Tried, NoMemory>
        requires { ReadFits (P.fits_state performer.now) (P.fits_args performer.now) self.now.objects kind op object args.now }
        ensures { IfOk result (λ t. t ≡ tried_on (P.performs performer.now) self.now.objects kind op object args.now) }
    {
        try_on(alloc, performer, &self.objects, kind, op, object, args)
    }

    /// Whether both views are equal.
    pub fn same(&self, other: &View) -> bool
        ensures { IsTrue result ↔ (self.now ≡ other.now) }
    {
        self.place == other.place && self.objects.is(&other.objects)
    }
}
