//! What of the text before a place decides how it goes on there.
ghost use Rattle.pj_lex.specs.Before.{after, base_head_after, behind_blank, ends_operand, is_value, line_goes_on, loop_head_after, parentheses_after, start};
ghost use Rattle.std.specs.Prelude.{◌≡◌, ◌<◌, ◌^◌, ◌+◌};

use crate::sign::Sign;
use crate::token::{BaseHead, Before, LoopHead, TokenKind};
use pj_words::Word;

/// The beginning of a text.
pub fn start() -> Before
    ensures { result ≡ start }
{
    Before {
        parentheses: 0,
        operand: false,
        line_goes_on: false,
        blank: false,
        loop_head: LoopHead::Outside,
        base_head: BaseHead::Outside,
    }
}

/// Behind blank space, a comment or a dropped line end.
pub fn behind_blank(before: Before) -> Before
    ensures { result ≡ behind_blank before }
{
    Before {
        blank: true,
        ..before
    }
}

/// Behind a token.
#[tactic(auto, unfolding(crate::specs::Before::after))]
pub fn after(before: Before, kind: &TokenKind) -> Before
    requires { before.parentheses + 1 < 2 ^ 64 }
    ensures { result ≡ after before kind.now }
{
    Before {
        parentheses: parentheses_after(before.parentheses, kind),
        operand: ends_operand(before.loop_head, before.base_head, kind),
        line_goes_on: line_goes_on(kind),
        blank: false,
        loop_head: loop_head_after(before.loop_head, kind),
        base_head: base_head_after(before.base_head, kind),
    }
}

fn parentheses_after(parentheses: usize, kind: &TokenKind) -> usize
    requires { parentheses + 1 < 2 ^ 64 }
    ensures { result ≡ parentheses_after parentheses kind.now }
{
    match kind {
        TokenKind::Sign(Sign::LeftParen) => parentheses + 1,
        TokenKind::Sign(Sign::RightParen) => parentheses.saturating_sub(1),
        _ => parentheses,
    }
}

fn line_goes_on(kind: &TokenKind) -> bool
    ensures { result ≡ line_goes_on kind.now }
{
    match kind {
        TokenKind::Sign(Sign::RightParen) => false,
        TokenKind::Sign(_) => true,
        _ => false,
    }
}

fn is_value(word: Word) -> bool
    ensures { result ≡ is_value word }
{
    match word {
        Word::True | Word::False | Word::Nothing => true,
        _ => false,
    }
}

/// Whether a token ends an operand: a name, but not the `in` of `for NAME in`; a literal; `)`; or the operator of
/// `Base.:OP`.
fn ends_operand(loop_head: LoopHead, base_head: BaseHead, kind: &TokenKind) -> bool
    ensures { result ≡ ends_operand loop_head base_head kind.now }
{
    match kind {
        TokenKind::Name(text) => loop_head != LoopHead::Variable || text.as_str() != "in",
        TokenKind::Integer(_) => true,
        TokenKind::Str(_) => true,
        TokenKind::Reserved(word) => is_value(*word),
        TokenKind::Sign(sign) => {
            *sign == Sign::RightParen || (base_head == BaseHead::Colon && sign.is_operator())
        }
        _ => false,
    }
}

fn loop_head_after(loop_head: LoopHead, kind: &TokenKind) -> LoopHead
    ensures { result ≡ loop_head_after loop_head kind.now }
{
    match (loop_head, kind) {
        (_, TokenKind::Reserved(Word::For)) => LoopHead::For,
        (LoopHead::For, TokenKind::Name(_)) => LoopHead::Variable,
        _ => LoopHead::Outside,
    }
}

fn base_head_after(base_head: BaseHead, kind: &TokenKind) -> BaseHead
    ensures { result ≡ base_head_after base_head kind.now }
{
    match (base_head, kind) {
        (_, TokenKind::Name(text)) => {
            if text.as_str() == "Base" {
                BaseHead::Base
            } else {
                BaseHead::Outside
            }
        }
        (BaseHead::Base, TokenKind::Sign(Sign::Dot)) => BaseHead::Dot,
        (BaseHead::Dot, TokenKind::Sign(Sign::Colon)) => BaseHead::Colon,
        _ => BaseHead::Outside,
    }
}
