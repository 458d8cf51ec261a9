//! Values that are shared.

ghost use Rattle.std.specs.Prelude.{◌≡◌, IfOk};
ghost use Rattle.std.specs.Arc.{arc_value};

use orca_base::NoMemory;
use std::alloc::Global;
use std::marker::Model;
use std::sync::Arc;

/// A value that all its copies share, which clauses see as the value: a copy costs a count.
#[derive(Drop)]
pub struct Kept<S: Drop> {
    value: Arc<S>,
}

impl<S: Drop> Model for Kept<S> {
    ghost use Rattle.std.specs.Arc.{arc_value};

    ghost Value = { S };

    ghost coded = { S.code };

    ghost view = { λ k. arc_value k.value };
}

impl<S: Drop> Kept<S> {
    /// This value, with no copy yet.
    pub fn new(alloc: Global, value: S) -> Result<Kept<S>, NoMemory>
        ensures { IfOk result (λ kept. kept ≡ value) }
    {
        Ok(Kept {
            value: Arc::new(alloc, value)?,
        })
    }

    /// The value.
    pub fn value(&self) -> &S
        ensures { result.now ≡ self.now }
    {
        &self.value
    }

    /// The same value.
    pub fn copy(&self) -> Result<Kept<S>, NoMemory>
        ensures { IfOk result (λ kept. kept ≡ self.now) }
    {
        Ok(Kept {
            value: Arc::try_clone(&self.value)?,
        })
    }
}
