//! Names, bounds, types and variables.

ghost use Rattle.std.specs.Prelude.{◌≡◌, ◌∷◌, [], ℕ, false, true};
ghost use Rattle.orca_lexer.specs.declared.token.Keyword.TheVariants.{KeyArray, KeyBag, KeyOf, KeySet};
ghost use Rattle.orca_lexer.specs.declared.token.TokenKind.TheVariants.{Key};
ghost use Rattle.orca_grammar.specs.Forms as forms;
ghost use Rattle.orca_grammar.specs.Forms.{◌⨾◌, Phrase};
ghost use Rattle.orca_grammar.specs.Reading.{comes, first, in_brackets};
ghost use Rattle.orca_grammar.specs.Sets.{sets, type_firsts};
ghost use Rattle.orca_grammar.specs.Grammar.{nest_at, read};
ghost use Rattle.orca_grammar.specs.Rules as rules;
ghost use Rattle.orca_tree.specs.Marks as marks;
ghost use Rattle.orca_tree.specs.Marks.{word};
ghost use Rattle.parse_exprs.specs.Gives.{Parses};

use crate::numbers::{comes_number, number, number_at};
use orca_lexer::{Keyword, Symbol, Token};
use orca_tree::{Bound, Name, TypePhrase, TypedName, Variables};
use parse_exprs::{
    Parsed, after_sign, comes_key, comes_name, comes_sign, key, key_at, name, sign, sign_at,
    too_nested,
};
use std::alloc::Global;

/// A number, with a sign or without, or a name.
#[tactic(auto, unfolding(orca_grammar::specs::Rules::bound))]
pub fn bound(alloc: Global, tokens: &[Token]) -> Parsed<'_, Bound>
    ensures { Parses marks.bound result (read 0 rules.bound tokens.now) }
{
    if comes_number(tokens) {
        let (at, value, rest) = number_at(tokens)?;
        return Ok((Bound::Number { at, value }, rest));
    }
    if comes_sign(tokens, Symbol::Minus) {
        let (at, rest) = sign_at(tokens, Symbol::Minus)?;
        let (value, rest) = number(rest)?;
        return Ok((Bound::Negative { at, value }, rest));
    }
    let (name, rest) = name(alloc, tokens)?;
    Ok((Bound::Named { name }, rest))
}

/// A name and those behind it, with commas between.
#[tactic(auto, unfolding(orca_grammar::specs::Rules::names))]
pub fn names(alloc: Global, tokens: &[Token]) -> Parsed<'_, Vec<Name>>
    ensures { Parses (λ ns. marks.names ns.items) result (read 0 rules.names tokens.now) }
{
    let (first, mut rest) = name(alloc, tokens)?;
    let mut names = vec![in alloc; first]?;
    'names: while let Some(after) = after_sign(rest, Symbol::Comma) {
        let (name, next) = name(alloc, after)?;
        names.push(name)?;
        rest = next;
    }
    Ok((names, rest))
}

// Whether the word of a plain type comes next, or a name.
#[tactic(auto, unfolding(orca_grammar::specs::Rules::plain_type))]
fn comes_plain_type(tokens: &[Token]) -> bool
    ensures { result ≡ comes (first sets rules.plain_type) tokens.now }
{
    comes_key(tokens, Keyword::KeyInteger)
        || comes_key(tokens, Keyword::KeyBoolean)
        || comes_key(tokens, Keyword::KeyChar)
        || comes_key(tokens, Keyword::KeyString)
        || comes_name(tokens)
}

// Whether types begin with the token that comes next.
#[tactic(auto, unfolding(orca_grammar::specs::Rules::plain_type, orca_grammar::specs::Sets::type_firsts))]
fn begins_type(tokens: &[Token]) -> bool
    ensures { result ≡ comes type_firsts tokens.now }
{
    comes_plain_type(tokens)
        || comes_key(tokens, Keyword::KeyArray)
        || comes_key(tokens, Keyword::KeySet)
        || comes_key(tokens, Keyword::KeyBag)
}

/// A type without parts.
#[tactic(auto, unfolding(orca_grammar::specs::Rules::plain_type))]
fn plain_type(alloc: Global, tokens: &[Token]) -> Parsed<'_, TypePhrase>
    ensures { (depth : ℕ) →
        Parses marks.type_phrase result (in_brackets (Phrase forms.TypePhrase) (read depth rules.plain_type tokens.now)) }
{
    if comes_key(tokens, Keyword::KeyInteger) {
        let (at, rest) = key_at(tokens, Keyword::KeyInteger)?;
        return Ok((TypePhrase::Integer { at }, rest));
    }
    if comes_key(tokens, Keyword::KeyBoolean) {
        let (at, rest) = key_at(tokens, Keyword::KeyBoolean)?;
        return Ok((TypePhrase::Boolean { at }, rest));
    }
    if comes_key(tokens, Keyword::KeyChar) {
        let (at, rest) = key_at(tokens, Keyword::KeyChar)?;
        return Ok((TypePhrase::Char { at }, rest));
    }
    if comes_key(tokens, Keyword::KeyString) {
        let (at, rest) = key_at(tokens, Keyword::KeyString)?;
        return Ok((TypePhrase::Text { at }, rest));
    }
    let (name, rest) = name(alloc, tokens)?;
    Ok((TypePhrase::Named { name }, rest))
}

/// A type, where so many levels of nesting are left.
#[cycle(types)]
#[tactic(auto, using(orca_grammar::proofs::Steps::nest_below, orca_grammar::proofs::Steps::nest_zero), unfolding(orca_grammar::specs::Rules::type_rule))]
pub fn type_phrase(alloc: Global, depth: u32, tokens: &[Token]) -> Parsed<'_, TypePhrase>
    ensures { Parses marks.type_phrase result (nest_at depth forms.TypePhrase tokens.now) }
{
    if depth == 0 {
        return Err(too_nested(tokens, begins_type(tokens)));
    }
    if comes_plain_type(tokens) {
        return plain_type(alloc, tokens);
    }
    if comes_key(tokens, Keyword::KeyArray) {
        return array_type(alloc, depth - 1, tokens);
    }
    if comes_key(tokens, Keyword::KeySet) {
        return set_type(alloc, depth - 1, tokens);
    }
    bag_type(alloc, depth - 1, tokens)
}

// An array: its bounds, and the type of its elements.
#[cycle(types)]
#[tactic(auto, unfolding(orca_grammar::specs::Rules::array_rest, orca_grammar::specs::Rules::bound))]
fn array_type(alloc: Global, depth: u32, tokens: &[Token]) -> Parsed<'_, TypePhrase>
    ensures { Parses marks.type_phrase result
        (in_brackets (Phrase forms.TypePhrase) (read depth (rules.key_at KeyArray ⨾ rules.array_rest) tokens.now)) }
{
    let (at, rest) = key_at(tokens, Keyword::KeyArray)?;
    let rest = sign(rest, Symbol::OpensIndex)?;
    let (low, rest) = bound(alloc, rest)?;
    let rest = sign(rest, Symbol::Range)?;
    let (high, rest) = bound(alloc, rest)?;
    let rest = sign(rest, Symbol::ClosesIndex)?;
    let (element, rest) = element_type(alloc, depth, rest)?;
    Ok((
        TypePhrase::Array {
            at,
            low,
            high,
            element,
        },
        rest,
    ))
}

// A set, and the type of its elements.
#[cycle(types)]
fn set_type(alloc: Global, depth: u32, tokens: &[Token]) -> Parsed<'_, TypePhrase>
    ensures { Parses marks.type_phrase result
        (in_brackets (Phrase forms.TypePhrase) (read depth (rules.key_at KeySet ⨾ rules.element_rest) tokens.now)) }
{
    let (at, rest) = key_at(tokens, Keyword::KeySet)?;
    let (element, rest) = element_type(alloc, depth, rest)?;
    Ok((TypePhrase::Set { at, element }, rest))
}

// A bag, and the type of its elements.
#[cycle(types)]
fn bag_type(alloc: Global, depth: u32, tokens: &[Token]) -> Parsed<'_, TypePhrase>
    ensures { Parses marks.type_phrase result
        (in_brackets (Phrase forms.TypePhrase) (read depth (rules.key_at KeyBag ⨾ rules.element_rest) tokens.now)) }
{
    let (at, rest) = key_at(tokens, Keyword::KeyBag)?;
    let (element, rest) = element_type(alloc, depth, rest)?;
    Ok((TypePhrase::Bag { at, element }, rest))
}

// The type behind `of`.
#[cycle(types)]
#[tactic(auto, unfolding(orca_grammar::specs::Rules::element_rest))]
fn element_type(alloc: Global, depth: u32, tokens: &[Token]) -> Parsed<'_, Box<TypePhrase>>
    ensures { Parses (λ t. word (Key KeyOf) ∷ marks.type_phrase t.value) result (read depth rules.element_rest tokens.now) }
{
    let rest = key(tokens, Keyword::KeyOf)?;
    let (element, rest) = type_phrase(alloc, depth, rest)?;
    Ok((Box::new(alloc, element)?, rest))
}

/// A name with its type.
#[tactic(auto, unfolding(orca_grammar::specs::Rules::typed_name))]
pub fn typed_name(alloc: Global, depth: u32, tokens: &[Token]) -> Parsed<'_, TypedName>
    ensures { Parses marks.typed_name result (read depth rules.typed_name tokens.now) }
{
    let (name, rest) = name(alloc, tokens)?;
    let rest = sign(rest, Symbol::Colon)?;
    let (kind, rest) = type_phrase(alloc, depth, rest)?;
    Ok((TypedName { name, kind }, rest))
}

/// The type of a result, if there is one.
#[tactic(auto, unfolding(orca_grammar::specs::Rules::result))]
pub fn result_type(alloc: Global, depth: u32, tokens: &[Token]) -> Parsed<'_, Option<TypePhrase>>
    ensures { Parses marks.result result (read depth rules.result tokens.now) }
{
    if !comes_sign(tokens, Symbol::Colon) {
        return Ok((None, tokens));
    }
    let rest = sign(tokens, Symbol::Colon)?;
    let (kind, rest) = type_phrase(alloc, depth, rest)?;
    Ok((Some(kind), rest))
}

// Variables of one type.
#[tactic(auto, unfolding(orca_grammar::specs::Rules::variable_line, orca_grammar::specs::Rules::names))]
fn variable_line(alloc: Global, depth: u32, tokens: &[Token]) -> Parsed<'_, Variables>
    ensures { Parses marks.variables result (read depth rules.variable_line tokens.now) }
{
    let (names, rest) = names(alloc, tokens)?;
    let rest = sign(rest, Symbol::Colon)?;
    let (kind, rest) = type_phrase(alloc, depth, rest)?;
    let rest = sign(rest, Symbol::Semicolon)?;
    Ok((Variables { names, kind }, rest))
}

/// Variables, as long as a name comes.
#[tactic(auto, unfolding(orca_grammar::specs::Rules::variables))]
pub fn variables(alloc: Global, depth: u32, tokens: &[Token]) -> Parsed<'_, Vec<Variables>>
    ensures { Parses (λ vs. marks.all_variables vs.items) result (read depth rules.variables tokens.now) }
{
    let mut lines = Vec::new(alloc);
    let mut rest = tokens;
    'lines: while comes_name(rest) {
        let (line, after) = variable_line(alloc, depth, rest)?;
        lines.push(line)?;
        rest = after;
    }
    Ok((lines, rest))
}
