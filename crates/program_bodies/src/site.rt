//! Where phrases are evaluated.

ghost use Rattle.std.specs.Prelude.{◌≡◌, ◌∷◌, ◌+◌, List, IfOk, bytes_eq, length, option_map, position};
ghost use Rattle.orca_tree.specs.declared.tree.Name.{Name as NameTree};
ghost use Rattle.type_rules.specs.Scopes as scopes;
ghost use Rattle.type_rules.specs.Statements.{with_loop};
ghost use Rattle.type_exprs.specs.Scoped.{IsScope};
ghost use Rattle.meaning_rules.specs.Designators as rules;
ghost use Rattle.program_tables.specs.Layers.{type_seen};
ghost use Rattle.program_bodies.specs.Bodies.{HasLocals, IsBody, bears};
ghost use Rattle.program_bodies.specs.Codes.{IsCode};
ghost use Rattle.program_bodies.specs.Sites.{IsSite, lent_texts};

use crate::bodies::{Body, BodyNames};
use crate::code::Code;
use orca_base::NoMemory;
use orca_tree::Name;
use program_tables::Seen;
use std::alloc::Global;
use type_exprs::Scope;

/// Where a phrase is evaluated: the code of its program, its body, the variables of the loops that are open, the innermost first, and
/// whether it stands in a guard.
#[derive(Clone, Copy)]
pub struct Site<'a, 'p> {
    pub code: &'a Code<'p>,
    pub body: &'a Body<'p>,
    pub loops: &'a [&'p str],
    pub in_guard: bool,
}

/// The variables of the open loops, with that of one more in front.
pub fn inner_loops<'p>(
    alloc: Global,
    loops: &[&'p str],
    name: &'p str,
) -> Result<Vec<&'p str>, NoMemory>
    ensures { IfOk result (λ v. lent_texts v.items ≡ name.now ∷ lent_texts loops.now) }
{
    let mut inner = Vec::from_slice(alloc, loops)?;
    inner.insert(0, name)?;
    Ok(inner)
}

// The place of a name among those of loops.
fn counting(loops: &[&str], name: &str) -> Option<usize>
    ensures { result ≡ position (λ n. bytes_eq n.now name.now) loops.now }
{
    loops.iter().position(|own| *own == name)
}

// The place of a name of a body behind the variables of loops.
fn behind(loops: &[&str], names: &BodyNames<'_>, name: &str) -> Option<usize>
    ensures { (ls : List scopes.Local) → HasLocals names.now ls →
        result ≡ option_map (λ j. j + length loops.now) (position (bears name.now) ls) }
{
    match names.places.get(name) {
        None => None,
        Some(place) => {
            if *place < names.types.len() {
                Some(*place + loops.len())
            } else {
                None
            }
        }
    }
}

impl<'a, 'p> Site<'a, 'p> {
    /// A body, with no loop open, in a guard or not.
    pub fn new(code: &'a Code<'p>, body: &'a Body<'p>, in_guard: bool) -> Site<'a, 'p>
        ensures { (w : scopes.Scope) → IsCode w.program code.now → IsBody body.now w → w.in_guard ≡ in_guard → IsSite result w }
    {
        Site {
            code,
            body,
            loops: &[],
            in_guard,
        }
    }
}

impl<'a, 'p> Site<'a, 'p> {
    /// The same in one more loop, where these are the variables of the open loops.
    pub fn in_loops(self, loops: &'a [&'p str]) -> Site<'a, 'p>
        ensures { (w : scopes.Scope) → IsSite self.entry w → (n : NameTree) →
            lent_texts loops.now ≡ n.text ∷ lent_texts self.entry.loops.now → IsSite result (with_loop w n) }
    {
        Site { loops, ..self }
    }

    /// Where the rules of typing see the phrase.
    pub fn scope(self) -> Scope<'a, 'p>
        ensures { (w : scopes.Scope) → IsSite self.entry w → IsScope result w }
    {
        Scope {
            tables: self.code.rule_tables(),
            home: self.body.home,
            names: &self.body.names.locals,
            loops: self.loops,
            counter: self.code.counter(),
            owner: self.body.owner,
            in_guard: self.in_guard,
        }
    }

    /// How many names are seen, which is the slot that none has.
    pub fn count(self) -> usize
        ensures { (w : scopes.Scope) → IsSite self.entry w → result ≡ length w.locals }
    {
        self.loops.len() + self.body.names.types.len()
    }

    /// The place of a name of the body, if it has one.
    pub fn place(self, name: &Name) -> Option<usize>
        ensures { (w : scopes.Scope) → IsSite self.entry w → result ≡ position (bears name.now.text) w.locals }
    {
        let text = name.text.as_str();
        match counting(self.loops, text) {
            Some(place) => Some(place),
            None => behind(self.loops, &self.body.names, text),
        }
    }

    /// The place of a name, and so of its value in the frame; behind them all where the body has no such name.
    pub fn slot(self, name: &Name) -> usize
        ensures { (w : scopes.Scope) → IsSite self.entry w → result ≡ rules.slot w name.now }
    {
        match self.place(name) {
            None => self.count(),
            Some(place) => place,
        }
    }

    /// The type of a name of the body, where that is known.
    pub fn root(self, name: &Name) -> Option<Seen<'a>>
        ensures { (w : scopes.Scope) → IsSite self.entry w → option_map type_seen result ≡ rules.root_type w name.now }
    {
        match self.scope().local(name.text.as_str()) {
            None => None,
            Some(local) => Seen::of_known(&local.kind),
        }
    }
}
