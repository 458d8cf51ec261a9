//! From tokens to a unit.

ghost use Rattle.std.specs.Prelude.{◌≡◌, None, List, IfOk};
ghost use Rattle.std.specs.List.{All};
ghost use Rattle.orca_base.specs.declared.refusal.Refusal.TheVariants.{Because};
ghost use Rattle.orca_base.specs.Refusal.{IfBecause};
ghost use Rattle.orca_grammar.specs.Forms.{Mark, first_deep};
ghost use Rattle.orca_grammar.specs.Grammar.{IsText, read};
ghost use Rattle.orca_grammar.specs.Rules as rules;
ghost use Rattle.orca_tree.specs.Marks.{unit as unit_marks};
ghost use Rattle.orca_tree.specs.declared.tree.Unit.{Unit as UnitTree};
ghost use Rattle.parse_exprs.specs.Gives.{Fails};
ghost use Rattle.orca_lexer.specs.Tokens.{HasRoom};
ghost use Rattle.parse_units.specs.declared.parse_error.ParseError.{ParseError as ErrorSeen};
ghost use Rattle.parse_units.specs.Refused.{IsRefusal};
ghost use Rattle.parse_units.specs.RoundTrip.{ReadsBack, StaysShort};

use crate::parse_error::{ParseError, first_place, unexpected};
use crate::units::unit;
use orca_base::{NESTING, NoMemory, Refusal, refuse};
use orca_lexer::Token;
use orca_tree::Unit;
use parse_exprs::ReadError;
use std::alloc::Global;

// Why tokens are no unit, by why none was read of them.
fn refusal(alloc: Global, tokens: &[Token], cause: ReadError<'_>) -> Result<ParseError, NoMemory>
    requires room { All HasRoom tokens.now }
    requires fails { Fails (Because cause) (read NESTING rules.unit tokens.now) }
    ensures { IfOk result (IsRefusal tokens.now) }
{
    match cause {
        ReadError::Unexpected { rest } => unexpected(alloc, tokens, rest),
        ReadError::TooNested { rest } => Ok(ParseError::TooNested {
            at: first_place(rest),
        }),
    }
}

/// The unit that tokens are, whole, or the one reason for which they are no unit that nests at most `NESTING` levels. No clause says so,
/// but one token decides each step, and nothing recurses deeper than the nesting of the text, which is `NESTING` at most; the cost is
/// that of the tokens' number (tested on 100,000 terms).
pub fn parse(alloc: Global, tokens: &[Token]) -> Result<Unit, Refusal<ParseError>>
    requires { All HasRoom tokens.now }

    // The unit is derived from these tokens by the grammar, and nests no deeper than `NESTING` levels. No other unit is.
    ensures found { IfOk result (λ u. IsText (unit_marks u) tokens.now) }
    ensures nests { IfOk result (λ u. first_deep (unit_marks u) NESTING ≡ None) }
    ensures only { IfOk result (λ u. (ms : List Mark) → IsText ms tokens.now → ms ≡ unit_marks u) }

    // There is no unit that nests no deeper; the first token with which no unit goes on, or the first that is nested too deep, is the
    // reason, and no other is.
    ensures none { IfBecause result (λ _. (ms : List Mark) → IsText ms tokens.now → first_deep ms NESTING ≡ None → ⊥) }
    ensures refused { IfBecause result (IsRefusal tokens.now) }
    ensures first { IfBecause result (λ error. (other : ErrorSeen) → IsRefusal tokens.now other → other ≡ error) }
{
    match unit(alloc, NESTING, tokens) {
        Ok((unit, rest)) => {
            if rest.is_empty() {
                return Ok(unit);
            }
            let cause = unexpected(alloc, tokens, rest)?;
            refuse(cause)
        }
        Err(Refusal::Because { cause }) => {
            let cause = refusal(alloc, tokens, cause)?;
            refuse(cause)
        }
        Err(Refusal::NoMemory) => Err(Refusal::NoMemory),
    }
}

/// The law of the parser and of the printer: the text `printed u` of a unit that was read, which `print_tree` gives where it is UTF-8,
/// has tokens, and they are read as the same unit, places aside. It is short enough to be read where the text that was read is below 2^31
/// - 1 bytes.
pub fn parse_law()
    ensures back { (u : UnitTree) → ReadsBack u }
    ensures short { (u : UnitTree) → StaysShort u }
{}
