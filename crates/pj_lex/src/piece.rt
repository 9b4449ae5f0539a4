//! The piece that stands at the front of a text.
ghost use Rattle.pj_lex.specs.Characters.{is_digit, width};
ghost use Rattle.pj_lex.specs.Numbers.{digits, negative, positive};
ghost use Rattle.pj_lex.specs.Pieces.{at_eval, comment, integer, is_minus_of_literal, line_end, next_piece, plain_piece, signed, string, word};
ghost use Rattle.pj_lex.specs.Names.{past_name};
ghost use Rattle.pj_lex.specs.Signs.{sign_at};
ghost use Rattle.pj_lex.specs.Sizes.{Fits};
ghost use Rattle.pj_lex.specs.Strings.{quoted};
ghost use Rattle.std.specs.Prelude.{◌≡◌, ◌+◌, ◌-◌, ◌<◌, ◌≤◌, ◌^◌, ◌∷◌, [], false, IfOk, IsTrue, length};

use crate::characters::{begins_with_digit, is_blank, is_digit, width};
use crate::comment::{past_comment, past_line};
use crate::name::{past_name, text_of};
use crate::number::{negative, positive};
use crate::sign::sign_at;
use crate::string::quoted;
use crate::token::{Before, TokenKind};
use pj_base::{NoMemory, Text};
use pj_words::{reserved_word, starts_name};
use std::alloc::Global;

const LONGEST_NAME: usize = 255;

/// The piece at the front of a text: a token, or None for blank space, a comment or a dropped line end; and its number of
/// characters.
#[derive(Drop)]
pub struct Piece {
    pub what: Option<TokenKind>,
    pub size: usize,
}

fn line_end(before: Before) -> Piece
    ensures piece { result ≡ line_end before }
    ensures size { result.size ≡ 1 }
{
    let what = if before.line_goes_on || before.parentheses > 0 {
        None
    } else {
        Some(TokenKind::Separator)
    };
    Piece { what, size: 1 }
}

/// Behind `#`: a comment.
fn comment(characters: &[char]) -> Option<Piece>
    ensures piece { result ≡ comment characters.now }
    ensures size { Fits result (1 + length characters.now) }
{
    let size = match characters {
        ['=', behind @ ..] => 2 + behind.len() - past_comment(behind)?.len(),
        _ => 1 + characters.len() - past_line(characters).len(),
    };
    Some(Piece { what: None, size })
}

/// Behind `"`: a string.
fn string(alloc: Global, characters: &[char]) -> Result<Option<Piece>, NoMemory>
    ensures piece { IfOk result (λ found. found ≡ string characters.now (quoted [] false characters.now)) }
    ensures size { IfOk result (λ found. Fits found (1 + length characters.now)) }
{
    let Some((value, rest)) = quoted(alloc, characters)? else {
        return Ok(None);
    };
    Ok(Some(Piece {
        what: Some(TokenKind::Str(Text::from_str(alloc, value.as_str())?)),
        size: 1 + characters.len() - rest.len(),
    }))
}

/// Behind a first digit: an integer.
fn integer(first: char, characters: &[char]) -> Option<Piece>
    requires { IsTrue (is_digit first) }
    ensures piece { result ≡ integer characters.now (positive (digits (first - 48) characters.now)) }
    ensures size { Fits result (1 + length characters.now) }
{
    let (value, rest) = positive(first, characters)?;
    Some(Piece {
        what: Some(TokenKind::Integer(value)),
        size: 1 + characters.len() - rest.len(),
    })
}

/// Behind the minus of a literal: an integer.
fn negative_integer(characters: &[char]) -> Option<Piece>
    ensures piece { result ≡ integer characters.now (negative (digits 0 characters.now)) }
    ensures size { Fits result (1 + length characters.now) }
{
    let (value, rest) = negative(characters)?;
    Some(Piece {
        what: Some(TokenKind::Integer(value)),
        size: 1 + characters.len() - rest.len(),
    })
}

/// A name or a reserved word, of a text from its first character on and from its second, or None where it is longer than 255
/// bytes.
#[tactic(auto, using(crate::proofs::Widths::width_split))]
fn word(alloc: Global, all: &[char], second: &[char]) -> Result<Option<Piece>, NoMemory>
    requires longer { length second.now < length all.now }
    requires width { width all.now < 2 ^ 64 }
    ensures piece { IfOk result (λ found. found ≡ word all.now (past_name second.now)) }
    ensures size { IfOk result (λ found. Fits found (length all.now)) }
{
    let size = all.len() - past_name(second).len();
    let front = &all[..size];
    if width(front) > LONGEST_NAME {
        return Ok(None);
    }
    let text = text_of(alloc, front)?;
    let what = match reserved_word(text.as_str()) {
        Some(word) => TokenKind::Reserved(word),
        None => TokenKind::Name(Text::from_str(alloc, text.as_str())?),
    };
    Ok(Some(Piece {
        what: Some(what),
        size,
    }))
}

/// Behind `@`: the word `eval`, as a whole.
fn at_eval(characters: &[char]) -> Option<Piece>
    ensures piece { result ≡ at_eval characters.now }
    ensures size { Fits result (1 + length characters.now) }
{
    let size = characters.len() - past_name(characters).len();
    if characters[..size] != ['e', 'v', 'a', 'l'] {
        return None;
    }
    Some(Piece {
        what: Some(TokenKind::AtEval),
        size: 1 + size,
    })
}

/// A sign at the front.
fn sign(characters: &[char]) -> Option<Piece>
    ensures piece { result ≡ signed (sign_at characters.now) }
    ensures size { Fits result (length characters.now) }
{
    let sign = sign_at(characters)?;
    Some(Piece {
        what: Some(TokenKind::Sign(sign)),
        size: sign.characters().len(),
    })
}

/// The piece at the front where that is a number, a word or an operator or sign.
fn plain_piece(
    alloc: Global,
    before: Before,
    first: char,
    all: &[char],
    rest: &[char],
) -> Result<Option<Piece>, NoMemory>
    requires whole { all.now ≡ first ∷ rest.now }
    requires width { width all.now < 2 ^ 64 }
    ensures piece { IfOk result (λ found. found ≡ plain_piece before first rest.now) }
    ensures size { IfOk result (λ found. Fits found (length all.now)) }
{
    if is_digit(first) {
        Ok(integer(first, rest))
    } else if first == '-' && !before.operand && begins_with_digit(rest) {
        Ok(negative_integer(rest))
    } else if starts_name(first) {
        word(alloc, all, rest)
    } else {
        Ok(sign(all))
    }
}

/// The piece at the front, if there is one.
#[tactic(auto, unfolding(crate::specs::Pieces::next_piece))]
pub fn next_piece(
    alloc: Global,
    before: Before,
    characters: &[char],
) -> Result<Option<Piece>, NoMemory>
    requires { width characters.now < 2 ^ 64 }
    ensures piece { IfOk result (λ found. found ≡ next_piece before characters.now) }
    ensures size { IfOk result (λ found. Fits found (length characters.now)) }
{
    let [first, rest @ ..] = characters else {
        return Ok(None);
    };
    if is_blank(*first) {
        return Ok(Some(Piece {
            what: None,
            size: 1,
        }));
    }
    match *first {
        '\n' => Ok(Some(line_end(before))),
        ';' => Ok(Some(Piece {
            what: Some(TokenKind::Separator),
            size: 1,
        })),
        '#' => Ok(comment(rest)),
        '"' => string(alloc, rest),
        '@' => Ok(at_eval(rest)),
        other => plain_piece(alloc, before, other, characters, rest),
    }
}
