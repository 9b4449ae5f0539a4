ghost use Rattle.pj_lex.specs.declared.token.Token.{Token};
ghost use Rattle.pj_lex.specs.Before.{behind, start};
ghost use Rattle.pj_lex.specs.Characters.{width};
ghost use Rattle.pj_lex.specs.Lexed.{Faulty, InOrder, Lexed, added};
ghost use Rattle.pj_lex.specs.Refused.{IsTokenFault};
ghost use Rattle.std.specs.Prelude.{◌≡◌, ◌+◌, ◌<◌, ◌^◌, ◌++◌, IfErr, IfOk, OnOk};

use crate::before::{after, behind_blank, start};
use crate::characters::width;
use crate::fault::{SyntaxFault, SyntaxKind};
use crate::piece::{Piece, next_piece};
use crate::token::{Before, Token, TokenKind, TokenList};
use pj_base::NoMemory;
use sqlite_items::Items;
use std::alloc::Global;

/// Adds the token that a piece is, if it is one, and answers what then stands before the next.
fn put(
    tokens: &mut TokenList,
    before: Before,
    start: usize,
    end: usize,
    what: Option<TokenKind>,
) -> Result<Before, NoMemory>
    requires { before.parentheses + 1 < 2 ^ 64 }
    ensures behind { IfOk result (λ now. now ≡ behind before what) }
    ensures added { OnOk result (tokens.new ≡ tokens.old ++ added before start end what) }
{
    let Some(kind) = what else {
        return Ok(behind_blank(before));
    };
    let now = after(before, &kind);
    tokens.push(Token {
        what: kind,
        start,
        end,
        blank: before.blank,
    })?;
    Ok(now)
}

/// The tokens of characters, or the place from which they go on with no piece.
pub fn tokens_of(alloc: Global, characters: &[char]) -> Result<TokenList, SyntaxFault>
    requires { width characters.now < 2 ^ 64 }
    ensures lexed { IfOk result (Lexed start 0 characters.now) }
    ensures cover { IfOk result (InOrder 0 (width characters.now)) }
    ensures fault { IfErr result (IsTokenFault characters.now) }
{
    let mut tokens = Items::new(alloc);
    let mut before = start();
    let mut at = 0;
    let mut rest = characters;
    while !rest.is_empty() {
        let Some(Piece { what, size }) = next_piece(alloc, before, rest)? else {
            return Err(SyntaxFault::Syntax {
                place: at,
                kind: SyntaxKind::Token,
            });
        };
        let (front, behind) = rest.split_at(size);
        let end = at + width(front);
        before = put(&mut tokens, before, at, end, what)?;
        at = end;
        rest = behind;
    }
    tokens.push(Token {
        what: TokenKind::Eof,
        start: at,
        end: at,
        blank: before.blank,
    })?;
    Ok(tokens)
}
