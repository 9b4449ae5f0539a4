//! How tightly operators bind, and which functions they call. It computes specs/Levels of pj_grammar. The prover finds these proofs by
//! itself.
ghost use Rattle.std.specs.Prelude.{◌≡◌};
ghost use Rattle.pj_grammar.specs.Levels.{fits, is_prefix, left_of, level_of, operator_text, rank, right_of};

use pj_grammar::Level;
use pj_lex::Sign;

/// The place of a level in their order, the loosest first.
fn rank(level: Level) -> u8
    ensures { result ≡ rank level }
{
    match level {
        Level::Conditional => 0,
        Level::Disjunction => 1,
        Level::Conjunction => 2,
        Level::Comparison => 3,
        Level::Sum => 4,
        Level::Product => 5,
        Level::Unary => 6,
        Level::Postfix => 7,
        Level::Primary => 8,
        Level::Callee => 9,
        Level::Named => 10,
        Level::Bare => 11,
    }
}

/// Whether what is read at the second level may stand where the first is wanted.
pub fn fits(wanted: Level, found: Level) -> bool
    ensures { result ≡ fits wanted found }
{
    rank(wanted) <= rank(found)
}

/// The level of a binary operator's expressions, where a sign is one.
pub fn level_of(sign: Sign) -> Option<Level>
    ensures { result ≡ level_of sign }
{
    match sign {
        Sign::Or => Some(Level::Disjunction),
        Sign::And => Some(Level::Conjunction),
        Sign::Same
        | Sign::NotSame
        | Sign::Equal
        | Sign::NotEqual
        | Sign::Less
        | Sign::LessOrEqual
        | Sign::Greater
        | Sign::GreaterOrEqual => Some(Level::Comparison),
        Sign::Plus | Sign::Minus => Some(Level::Sum),
        Sign::Times | Sign::Quotient | Sign::Remainder => Some(Level::Product),
        _ => None,
    }
}

/// The level of the left operand of an operator of a level.
pub fn left_of(level: Level) -> Level
    ensures { result ≡ left_of level }
{
    match level {
        Level::Disjunction => Level::Conjunction,
        Level::Conjunction => Level::Comparison,
        Level::Comparison => Level::Sum,
        other => other,
    }
}

/// The level of the right operand of an operator of a level.
pub fn right_of(level: Level) -> Level
    ensures { result ≡ right_of level }
{
    match level {
        Level::Comparison => Level::Sum,
        Level::Sum => Level::Product,
        Level::Product => Level::Unary,
        other => other,
    }
}

/// Whether a sign can stand before an operand as an operator.
pub fn is_prefix(sign: Sign) -> bool
    ensures { result ≡ is_prefix sign }
{
    sign == Sign::Minus || sign == Sign::Not
}

/// The name of the function of Base that an operator calls.
pub fn operator_text(sign: Sign) -> &'static str
    ensures { result.now ≡ operator_text sign }
{
    match sign {
        Sign::Quotient => "div",
        Sign::Remainder => "rem",
        Sign::Same => "===",
        Sign::NotSame => "!==",
        Sign::AddAssign => "+=",
        Sign::SubtractAssign => "-=",
        Sign::MultiplyAssign => "*=",
        Sign::Equal => "==",
        Sign::NotEqual => "!=",
        Sign::LessOrEqual => "<=",
        Sign::GreaterOrEqual => ">=",
        Sign::And => "&&",
        Sign::Or => "||",
        Sign::DoubleColon => "::",
        Sign::Below => "<:",
        Sign::Comma => ",",
        Sign::Assign => "=",
        Sign::Plus => "+",
        Sign::Minus => "-",
        Sign::Times => "*",
        Sign::Less => "<",
        Sign::Greater => ">",
        Sign::Question => "?",
        Sign::Colon => ":",
        Sign::LeftParen => "(",
        Sign::RightParen => ")",
        Sign::Dot => ".",
        Sign::Not => "!",
    }
}
