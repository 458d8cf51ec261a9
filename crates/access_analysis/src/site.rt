//! Where phrases of operations stand.

ghost use Rattle.std.specs.Prelude.{◌≡◌, ◌∷◌, [], List, false};
ghost use Rattle.orca_tree.specs.declared.tree.Name.{Name as NameTree};
ghost use Rattle.orca_syntax.specs.Shown.{expr, operation as operation_shown};
ghost use Rattle.link_rules.specs.Units.{Source};
ghost use Rattle.type_rules.specs.Scopes as scopes;
ghost use Rattle.type_rules.specs.Statements.{with_loop};
ghost use Rattle.type_forms.specs.Indexed.{Indexes};
ghost use Rattle.meaning_rules.specs.Calls.{callee as rule_callee};
ghost use Rattle.meaning_rules.specs.Classes.{lends_field, names_field};
ghost use Rattle.meaning_rules.specs.Programs.{operation_scope};
ghost use Rattle.program_bodies.specs.Named.{callee_seen};
ghost use Rattle.program_bodies.specs.Objects.{object_type_seen};
ghost use Rattle.access_analysis.specs.Loops.{variables_of};
ghost use Rattle.access_analysis.specs.Sites.{IsSite, hide};

use crate::declared::{declares, takes};
use crate::loops::{Loops, counts};
use orca_tree::{Expression, Mode, Name, Operation, Variables};
use program_bodies::{Callee, Implemented, function_named};
use type_forms::Index;

/// Where a phrase of an operation stands: the names of its program, its module, the operation, the fields of its object, and the loops that
/// are open.
#[derive(Clone, Copy)]
pub struct Site<'a, 'p> {
    pub index: &'a Index<'p>,
    pub home: &'a str,
    pub operation: &'a Operation,
    pub fields: &'a [Variables],
    pub loops: &'a Loops<'a>,
}

impl<'a, 'p> Site<'a, 'p> {
    /// An operation of an implementation, where these are no loops.
    pub fn new(
        index: &'a Index<'p>,
        of: Implemented<'a>,
        operation: &'a Operation,
        loops: &'a Loops<'a>,
    ) -> Site<'a, 'p>
        ensures { (us : List Source) → Indexes index.now us → variables_of loops.now ≡ [] →
            IsSite result (operation_scope us (object_type_seen of.entry) (operation_shown operation.now) false) }
    {
        Site {
            index,
            home: of.home,
            operation,
            fields: of.fields,
            loops,
        }
    }
}

impl<'a, 'p> Site<'a, 'p> {
    /// The same in one more loop, where these are the loops that are open.
    pub fn in_loops(self, loops: &'a Loops<'a>) -> Site<'a, 'p>
        ensures { (w : scopes.Scope) → IsSite self.entry w → (n : NameTree) →
            variables_of loops.now ≡ n.text ∷ variables_of self.entry.loops.now → IsSite result (with_loop w n) }
    {
        Site { loops, ..self }
    }

    // Whether a name of the operation or of an open loop hides the fields.
    fn hides(self, text: &str) -> bool
        ensures { result ≡ hide (variables_of self.entry.loops.now) (operation_shown self.entry.operation.now) text.now }
    {
        let counting = counts(self.loops, text);
        let given = takes(&self.operation.head.parameters, text);
        let own = declares(&self.operation.variables, text);
        counting || (given || own)
    }

    /// Whether a name is that of a field of the object.
    pub fn is_field(self, name: &Name) -> bool
        ensures { (w : scopes.Scope) → IsSite self.entry w → result ≡ names_field w name.now }
    {
        let text = name.text.as_str();
        if self.hides(text) {
            return false;
        }
        declares(self.fields, text)
    }

    /// What is called by a function's name.
    pub fn callee(self, name: &Name) -> Callee<'p>
        ensures { (w : scopes.Scope) → IsSite self.entry w → callee_seen result ≡ rule_callee w name.now }
    {
        let is = self.index.stands_for(self.home, name.text.as_str());
        function_named(is)
    }

    // Whether the root of an argument that is passed for `out` is a field.
    fn lends_out(self, e: &Expression) -> bool
        ensures { (w : scopes.Scope) → IsSite self.entry w → result ≡ lends_field w Mode.Out (expr e.now) }
    {
        match e {
            Expression::Get { from } => self.is_field(&from.name),
            _ => false,
        }
    }

    /// Whether the root of an argument is a field that is passed for `out`, or as a graph to be changed.
    pub fn lends(self, mode: Mode, e: &Expression) -> bool
        ensures { (w : scopes.Scope) → IsSite self.entry w → result ≡ lends_field w mode (expr e.now) }
    {
        match mode {
            Mode::Out => self.lends_out(e),
            Mode::Value | Mode::Shared => false,
        }
    }
}
