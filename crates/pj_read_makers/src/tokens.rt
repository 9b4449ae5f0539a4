//! Small tests of tokens, and what single tokens make. It computes the tests in specs/Closing, Machine, Operands and Statements of
//! pj_grammar. The prover finds these proofs by itself.
ghost use Rattle.std.specs.Prelude.{◌≡◌};
ghost use Rattle.pj_grammar.specs.Closing.{is_close};
ghost use Rattle.pj_grammar.specs.Machine.{ends_line, is_end};
ghost use Rattle.pj_grammar.specs.Operands.{is_plain};
ghost use Rattle.pj_grammar.specs.Statements.{assigning, begins_bounds, is_dot, is_paren, operator_at};

use pj_grammar::Operator;
use pj_lex::{Sign, TokenKind};
use pj_words::Word;

/// The sign of an assignment, with the operator that it applies before, if any. None where a sign assigns nothing.
pub fn assigning(sign: Sign) -> Option<Option<Sign>>
    ensures { result ≡ assigning sign }
{
    match sign {
        Sign::Assign => Some(None),
        Sign::AddAssign => Some(Some(Sign::Plus)),
        Sign::SubtractAssign => Some(Some(Sign::Minus)),
        Sign::MultiplyAssign => Some(Some(Sign::Times)),
        _ => None,
    }
}

/// The operator of a sign at a place, where there is a sign.
pub fn operator_at(at: usize, sign: Option<Sign>) -> Option<Operator>
    ensures { result ≡ operator_at at sign }
{
    match sign {
        None => None,
        Some(sign) => Some(Operator { sign, at }),
    }
}

/// Whether an assignment applies no operator.
pub fn is_plain(operator: Option<Sign>) -> bool
    ensures { result ≡ is_plain operator }
{
    match operator {
        None => true,
        Some(_) => false,
    }
}

/// Whether a token is `(`.
pub fn is_paren(kind: &TokenKind) -> bool
    ensures { result ≡ is_paren kind.now }
{
    match kind {
        TokenKind::Sign(Sign::LeftParen) => true,
        _ => false,
    }
}

/// Whether a token is `)`.
pub fn is_close(kind: &TokenKind) -> bool
    ensures { result ≡ is_close kind.now }
{
    match kind {
        TokenKind::Sign(Sign::RightParen) => true,
        _ => false,
    }
}

/// Whether a token is `.`.
pub fn is_dot(kind: &TokenKind) -> bool
    ensures { result ≡ is_dot kind.now }
{
    match kind {
        TokenKind::Sign(Sign::Dot) => true,
        _ => false,
    }
}

/// Whether a token is `in` or `=`, which stand before the bounds of a loop.
pub fn begins_bounds(kind: &TokenKind) -> bool
    ensures { result ≡ begins_bounds kind.now }
{
    match kind {
        TokenKind::Name(text) => text.as_str() == "in",
        TokenKind::Sign(Sign::Assign) => true,
        _ => false,
    }
}

/// Whether a token is a separator or the end of the text.
pub fn is_end(kind: &TokenKind) -> bool
    ensures { result ≡ is_end kind.now }
{
    match kind {
        TokenKind::Separator | TokenKind::Eof => true,
        _ => false,
    }
}

/// Whether a token ends a statement that is a word alone.
pub fn ends_line(kind: &TokenKind) -> bool
    ensures { result ≡ ends_line kind.now }
{
    match kind {
        TokenKind::Separator | TokenKind::Eof => true,
        TokenKind::Reserved(Word::End | Word::Else | Word::ElseIf) => true,
        _ => false,
    }
}
