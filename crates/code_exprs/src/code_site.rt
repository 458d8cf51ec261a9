//! Where code is emitted.

ghost use Rattle.std.specs.Prelude.{◌≡◌, ◌∷◌, ◌+◌, [], IfOk, cond, length, nat_lt};
ghost use Rattle.orca_tree.specs.declared.tree.Name.{Name as NameTree};
ghost use Rattle.type_rules.specs.Scopes.{Scope, local};
ghost use Rattle.type_rules.specs.Statements.{with_loop};
ghost use Rattle.program_bodies.specs.Bodies.{IsBody};
ghost use Rattle.program_bodies.specs.Codes.{IsCode};
ghost use Rattle.program_bodies.specs.Sites.{lent_texts};
ghost use Rattle.code_rules.specs.Layouts as layouts;
ghost use Rattle.code_rules.specs.Layouts.{Layout, inside, layout_of, spot_in};
ghost use Rattle.code_rules.specs.Phrases.{at_slot, object_slot};
ghost use Rattle.code_exprs.specs.CodeSites.{IsCodeSite};

use orca_base::NoMemory;
use orca_tree::Name;
use program_bodies::{Body, BodyNames, Code, Site};

/// The site of a phrase, and a slot that its body has not.
#[derive(Clone, Copy)]
pub struct CodeSite<'a, 'p> {
    pub site: Site<'a, 'p>,
    pub beyond: usize,
}

// Both counts together. More than 64 bits count is more than memory holds.
fn both(one: usize, other: usize) -> Result<usize, NoMemory>
    ensures { IfOk result (λ n. n ≡ one + other) }
{
    one.checked_add(other).ok_or(NoMemory)
}

// The site of a body, with no loop open.
fn outer_site<'a, 'p>(code: &'a Code<'p>, body: &'a Body<'p>, in_guard: bool) -> Site<'a, 'p>
    ensures code { result.code.now ≡ code.now }
    ensures body { result.body.now ≡ body.now }
    ensures loops { result.loops.now ≡ [] }
    ensures guard { result.in_guard ≡ in_guard }
{
    Site {
        code,
        body,
        loops: &[],
        in_guard,
    }
}

// The slot of a name of the body.
fn named_slot(own: usize, beyond: usize, place: usize) -> usize
    ensures { result ≡ cond (nat_lt place own) place beyond }
{
    if place < own { place } else { beyond }
}

// The slot of a place among the names that are seen.
fn spot_of(loops: &[&str], names: &BodyNames<'_>, beyond: usize, place: usize) -> usize
    ensures { result ≡ spot_in (length names.now.types.items) (length loops.now) beyond place }
{
    let depth = loops.len();
    let own = names.types.len();
    if place < depth {
        return depth + own - 1 - place;
    }
    named_slot(own, beyond, place - depth)
}

// The first slot that no name has and no open loop.
fn free_of(loops: &[&str], names: &BodyNames<'_>) -> usize
    ensures { result ≡ length names.now.types.items + length loops.now }
{
    let depth = loops.len();
    let own = names.types.len();
    depth + own
}

impl<'a, 'p> CodeSite<'a, 'p> {
    /// The site of a body's phrases, in a guard or not, with no loop open, where so many loops may be open at once.
    ///
    /// # Errors
    /// Want of memory, and so it is called where the names and loops of the body are 2 ^ 64 together.
    pub fn new(
        code: &'a Code<'p>,
        body: &'a Body<'p>,
        in_guard: bool,
        spare: usize,
    ) -> Result<CodeSite<'a, 'p>, NoMemory>
        ensures { (w : Scope) → IsCode w.program code.now → IsBody body.now w → w.in_guard ≡ in_guard →
            IfOk result (λ d. IsCodeSite d w (layout_of w spare)) }
    {
        let own = body.names.types.len();
        let beyond = both(own, spare)?;
        let site = outer_site(code, body, in_guard);
        Ok(CodeSite { site, beyond })
    }

    /// The first slot that no name has and no open loop.
    pub fn free(self) -> usize
        ensures { (w : Scope) (l : Layout) → IsCodeSite self.entry w l → result ≡ layouts.free l }
    {
        free_of(self.site.loops, &self.site.body.names)
    }

    /// The same in one more loop, where these are the variables of the open loops.
    pub fn in_loops(self, loops: &'a [&'p str]) -> CodeSite<'a, 'p>
        ensures { (w : Scope) (l : Layout) → IsCodeSite self.entry w l → (n : NameTree) →
            lent_texts loops.now ≡ n.text ∷ lent_texts self.entry.site.loops.now → IsCodeSite result (with_loop w n) (inside l) }
    {
        CodeSite {
            site: Site { loops, ..self.site },
            beyond: self.beyond,
        }
    }

    /// The slot of a place among the names that are seen.
    pub fn spot(self, place: usize) -> usize
        ensures { (w : Scope) (l : Layout) → IsCodeSite self.entry w l → result ≡ layouts.spot l place }
    {
        spot_of(self.site.loops, &self.site.body.names, self.beyond, place)
    }

    /// The slot of a name.
    pub fn slot(self, name: &Name) -> usize
        ensures { (w : Scope) (l : Layout) → IsCodeSite self.entry w l → result ≡ at_slot w l name.now }
    {
        self.spot(self.site.slot(name))
    }

    /// The slot of the object that a name is, and one that the body has not where that is no name of it.
    pub fn object(self, name: &Name) -> usize
        ensures { (w : Scope) (l : Layout) → IsCodeSite self.entry w l → result ≡ object_slot w l name.now (local w name.now.text) }
    {
        match self.site.place(name) {
            Some(place) => self.spot(place),
            None => self.beyond,
        }
    }
}
