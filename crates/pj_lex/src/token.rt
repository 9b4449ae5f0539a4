//! Tokens, and what of the tokens before a place decides how the text goes on there.
ghost use Rattle.pj_lex.specs.Before.{after, behind_blank, start};
ghost use Rattle.std.specs.Prelude.{◌≡◌, ◌<◌, ◌^◌};

use crate::sign::Sign;
use pj_base::Text;
use pj_words::Word;
use sqlite_items::Items;

/// What a token is. A name has its text, and a string its value, in which escapes are replaced.
#[derive(Drop)]
pub enum TokenKind {
    Name(Text),
    Integer(i64),
    Str(Text),
    Reserved(Word),
    Sign(Sign),
    AtEval,
    Separator,
    Eof,
}

/// A token, with the places of its first byte and of the byte behind it, and whether blank space, a comment or a dropped
/// line end stands directly before it.
#[derive(Drop)]
pub struct Token {
    pub what: TokenKind,
    pub start: usize,
    pub end: usize,
    pub blank: bool,
}

pub type TokenList = Items<Token>;

/// How much of `for NAME` stands directly before.
#[derive(Clone, Copy, Debug, PartialEq, Eq)]
pub enum LoopHead {
    Outside,
    For,
    Variable,
}

/// How much of `Base.:` stands directly before.
#[derive(Clone, Copy, Debug, PartialEq, Eq)]
pub enum BaseHead {
    Outside,
    Base,
    Dot,
    Colon,
}

/// What of the text before a place decides how it goes on there.
#[derive(Clone, Copy, Debug, PartialEq, Eq)]
pub struct Before {
    /// How many parentheses are open.
    pub parentheses: usize,
    /// Whether the last token ends an operand, so that a `-` is no part of a literal.
    pub operand: bool,
    /// Whether a line end is dropped behind the last token.
    pub line_goes_on: bool,
    /// Whether blank space, a comment or a dropped line end stands directly before.
    pub blank: bool,
    pub loop_head: LoopHead,
    pub base_head: BaseHead,
}
