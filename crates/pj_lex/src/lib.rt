//! From the bytes of a text to its tokens.
#![tactic(auto)]

ghost use Rattle.pj_lex.specs.declared.token.Token.{Token};
ghost use Rattle.pj_lex.specs.Lexed.{InOrder, IsFault, IsSyntax, IsTokens};
ghost use Rattle.pj_lex.specs.Spelled.{IsSpelled};
ghost use Rattle.std.specs.List.{AllByRecursion};
ghost use Rattle.std.specs.Prelude.{◌≡◌, IfErr, IfOk, List, length};

pub mod before;
mod characters;
mod comment;
pub mod fault;
pub mod laws;
mod lexing;
mod name;
mod number;
mod piece;
pub mod sign;
mod string;
pub mod text_rows;
pub mod token;

pub use fault::{SyntaxFault, SyntaxKind};
pub use sign::Sign;
use std::alloc::Global;
use std::str;
pub use token::{BaseHead, Before, LoopHead, Token, TokenKind, TokenList};

/// The tokens of a text in UTF-8, of which the last is an empty one at its end. Places and spans count bytes. Each name is an
/// identifier, and names, reserved words and signs are what stands in their spans. A fault is Utf8
/// at the first byte at which the text stops being UTF-8, or else Token at the start of the first piece that is no token: an
/// unended string or comment, a string with another escape or a bare `$`, and an integer out of range are none.
pub fn tokens(alloc: Global, bytes: &[u8]) -> Result<TokenList, SyntaxFault>
    ensures lexed { IfOk result (IsTokens bytes.now) }
    ensures only { IfOk result (λ tokens. (others : List Token) → IsTokens bytes.now others → others ≡ tokens) }
    ensures spelled { IfOk result (AllByRecursion (IsSpelled bytes.now)) }
    ensures cover { IfOk result (InOrder 0 (length bytes.now)) }
    ensures fault { IfErr result (IsFault bytes.now) }
    ensures refused { IfErr result (λ fault. IsSyntax fault → (others : List Token) → ¬ (IsTokens bytes.now others)) }
{
    let text = match str::from_utf8(bytes) {
        Ok(text) => text,
        Err(stop) => {
            return Err(SyntaxFault::Syntax {
                place: stop.valid_up_to(),
                kind: SyntaxKind::Utf8,
            });
        }
    };
    let all = characters::characters(alloc, text)?;
    lexing::tokens_of(alloc, all.as_slice())
}
