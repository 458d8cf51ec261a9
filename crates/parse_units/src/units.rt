//! Units: a module's line, its imports and its declarations.

ghost use Rattle.std.specs.List.{flat_map};
ghost use Rattle.orca_grammar.specs.Grammar.{read};
ghost use Rattle.orca_grammar.specs.Rules as rules;
ghost use Rattle.orca_tree.specs.Marks as marks;
ghost use Rattle.parse_exprs.specs.Gives.{Parses};

use orca_lexer::{Keyword, Symbol, Token};
use orca_tree::{Declaration, Name, Unit};
use parse_declarations::{begins_declaration, declaration};
use parse_exprs::{Parsed, comes_key, key, name, sign};
use std::alloc::Global;

// The name behind `module`, if there is such a line.
#[tactic(auto, unfolding(orca_grammar::specs::Rules::module_line))]
fn module_line(alloc: Global, tokens: &[Token]) -> Parsed<'_, Option<Name>>
    ensures { Parses marks.module_line result (read 0 rules.module_line tokens.now) }
{
    if !comes_key(tokens, Keyword::KeyModule) {
        return Ok((None, tokens));
    }
    let rest = key(tokens, Keyword::KeyModule)?;
    let (module, rest) = name(alloc, rest)?;
    let rest = sign(rest, Symbol::Semicolon)?;
    Ok((Some(module), rest))
}

// The name behind `import`.
#[tactic(auto, unfolding(orca_grammar::specs::Rules::import_line))]
fn import_line(alloc: Global, tokens: &[Token]) -> Parsed<'_, Name>
    ensures { Parses marks.import_line result (read 0 rules.import_line tokens.now) }
{
    let rest = key(tokens, Keyword::KeyImport)?;
    let (module, rest) = name(alloc, rest)?;
    let rest = sign(rest, Symbol::Semicolon)?;
    Ok((module, rest))
}

// The modules that are imported, as long as `import` comes.
#[tactic(auto, unfolding(orca_grammar::specs::Rules::imports))]
fn imports(alloc: Global, tokens: &[Token]) -> Parsed<'_, Vec<Name>>
    ensures { Parses (λ ns. flat_map marks.import_line ns.items) result (read 0 rules.imports tokens.now) }
{
    let mut parts = Vec::new(alloc);
    let mut rest = tokens;
    'parts: while comes_key(rest, Keyword::KeyImport) {
        let (part, after) = import_line(alloc, rest)?;
        parts.push(part)?;
        rest = after;
    }
    Ok((parts, rest))
}

// Declarations, as long as one comes.
#[tactic(auto, unfolding(orca_grammar::specs::Rules::declarations))]
fn declarations(alloc: Global, depth: u32, tokens: &[Token]) -> Parsed<'_, Vec<Declaration>>
    ensures { Parses (λ ds. flat_map marks.declaration ds.items) result (read depth rules.declarations tokens.now) }
{
    let mut parts = Vec::new(alloc);
    let mut rest = tokens;
    'parts: while begins_declaration(rest) {
        let (part, after) = declaration(alloc, depth, rest)?;
        parts.push(part)?;
        rest = after;
    }
    Ok((parts, rest))
}

/// A unit, and the tokens behind it.
#[tactic(auto, unfolding(orca_grammar::specs::Rules::unit, orca_grammar::specs::Rules::module_line, orca_grammar::specs::Rules::imports, orca_grammar::specs::Rules::import_line))]
pub fn unit(alloc: Global, depth: u32, tokens: &[Token]) -> Parsed<'_, Unit>
    ensures { Parses marks.unit result (read depth rules.unit tokens.now) }
{
    let (module, rest) = module_line(alloc, tokens)?;
    let (imports, rest) = imports(alloc, rest)?;
    let (declarations, rest) = declarations(alloc, depth, rest)?;
    Ok((
        Unit {
            module,
            imports,
            declarations,
        },
        rest,
    ))
}
