//! What declarations are judged with.

ghost use Rattle.std.specs.Prelude.{◌≡◌, List, Bool, false, IsTrue};
ghost use Rattle.link_rules.specs.Units.{Source};
ghost use Rattle.type_rules.specs.Scopes as scopes;
ghost use Rattle.type_stmts.specs.Bodies.{IsBody, fields_last, guarding};
ghost use Rattle.type_decls.specs.Bodies.{AreLocals};
ghost use Rattle.type_decls.specs.Contexts.{IsContext};

use crate::locals::Locals;
use type_exprs::{Local, Scope};
use type_forms::Names;
use type_rules::{DataType, Owner};
use type_stmts::BodyScope;
use type_tables::Tables;

/// The tables of a program, which of its declared types hold themselves, no names, and what the variable of a loop is.
#[derive(Clone, Copy)]
pub struct Context<'a, 'p> {
    pub tables: Tables<'a, 'p>,
    pub rounds: &'a [bool],
    pub none: &'a Names<'p>,
    pub counter: &'a Local,
}

impl<'a, 'p> Context<'a, 'p> {
    /// Where the statements of a body stand: in this module, among these names, of which those of fields are the last, in a body of this
    /// sort, which gives this.
    pub fn body(
        self,
        home: &'a str,
        locals: &'a Locals<'p>,
        owner: Owner,
        gives: &'a Option<Option<DataType>>,
    ) -> BodyScope<'a, 'p>
        ensures plain { (us : List Source) → IsContext us self.entry → (ls : List scopes.Local) → AreLocals locals.now ls →
            IsTrue (fields_last ls) → IsBody result
            (record { program = us; home = home.now; locals = ls; owner = owner; result = gives.now; in_guard = false }) }
        ensures guarded { (us : List Source) → IsContext us self.entry → (ls : List scopes.Local) → AreLocals locals.now ls →
            IsTrue (fields_last ls) → (g : Bool) → IsBody (guarding result g)
            (record { program = us; home = home.now; locals = ls; owner = owner; result = gives.now; in_guard = g }) }
    {
        BodyScope {
            scope: Scope {
                tables: self.tables,
                home,
                names: locals,
                loops: &[],
                counter: self.counter,
                owner,
                in_guard: false,
            },
            gives,
        }
    }
}
