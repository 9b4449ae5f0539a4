//! Texts with their tokens or their fault, and texts with a byte left out.
//!
//! A token is written with its span, and `~` before it where blank space, a comment or a dropped line end stands directly
//! before. A `'` stands before reserved words, `#` before integers, and `$` before the values of strings.

use crate::tally::Tally;
use anyhow::anyhow;
use pj_case_lines::{add_hex, halves, unescaped};
use pj_lex::{SyntaxFault, SyntaxKind, Token, TokenKind};
use std::alloc::{AllocError, Global};

/// Adds a text behind a mark.
fn push_marked(told: &mut String, mark: char, text: &str) -> Result<(), AllocError> {
    told.push(mark)?;
    told.push_str(text)
}

fn push_characters(told: &mut String, characters: &[char]) -> Result<(), AllocError> {
    for character in characters {
        told.push(*character)?;
    }
    Ok(())
}

/// Adds a token's kind as the rows write it.
fn push_kind(alloc: Global, told: &mut String, kind: &TokenKind) -> Result<(), AllocError> {
    match kind {
        TokenKind::Name(text) => told.push_str(text.as_str()),
        TokenKind::Integer(value) => push_marked(told, '#', value.to_string(alloc)?.as_str()),
        TokenKind::Str(value) => push_marked(told, '$', value.as_str()),
        TokenKind::Reserved(word) => push_marked(told, '\'', word.text()),
        TokenKind::Sign(sign) => push_characters(told, sign.characters()),
        TokenKind::AtEval => told.push_str("@eval"),
        TokenKind::Separator => told.push(';'),
        TokenKind::Eof => told.push_str("eof"),
    }
}

/// Adds a token as the rows write it.
fn push_token(alloc: Global, told: &mut String, token: &Token) -> Result<(), AllocError> {
    if token.blank {
        told.push('~')?;
    }
    push_kind(alloc, told, &token.what)?;
    push_marked(told, '@', token.start.to_string(alloc)?.as_str())?;
    push_marked(told, '-', token.end.to_string(alloc)?.as_str())
}

/// Tokens as the rows write them.
fn told(alloc: Global, tokens: &[Token]) -> Result<String, AllocError> {
    let mut told = String::new(alloc);
    for token in tokens {
        if !told.is_empty() {
            told.push(' ')?;
        }
        push_token(alloc, &mut told, token)?;
    }
    Ok(told)
}

/// The tokens of a text as the rows write them, and nothing where it has a fault.
fn tokens_of(alloc: Global, text: &str) -> Result<String, AllocError> {
    match pj_lex::tokens(alloc, text.as_bytes()) {
        Ok(list) => told(alloc, list.as_slice()),
        Err(_) => Ok(String::new(alloc)),
    }
}

/// The bytes without that at a place.
fn without(alloc: Global, bytes: &[u8], at: usize) -> Result<Vec<u8>, AllocError> {
    let mut left = Vec::new(alloc);
    for (place, byte) in bytes.iter().enumerate() {
        if place != at {
            left.push(*byte)?;
        }
    }
    Ok(left)
}

/// Tries a text with its tokens.
pub fn try_tokens(tally: &mut Tally<'_>, text: &str, below: &str) -> anyhow::Result<()> {
    let text = unescaped(tally.alloc(), text)?.text;
    let wanted = unescaped(tally.alloc(), below)?.text;
    let found = tokens_of(tally.alloc(), text.as_str())?;
    tally.expect(text.as_str(), wanted.as_str(), found.as_str())
}

/// Whether a text has tokens without the byte at a place, or a fault at one of its places.
fn is_answered(alloc: Global, text: &str, at: usize) -> Result<bool, AllocError> {
    let left = without(alloc, text.as_bytes(), at)?;
    let place = match pj_lex::tokens(alloc, left.as_slice()) {
        Ok(_) => 0,
        Err(SyntaxFault::Syntax { place, .. }) => place,
        Err(SyntaxFault::NoMemory) => text.len(),
    };
    Ok(place < text.len())
}

/// Tries a text without each of its bytes.
pub fn try_shorter(tally: &mut Tally<'_>, text: &str) -> anyhow::Result<()> {
    let text = unescaped(tally.alloc(), text)?.text;
    let text = text.as_str();
    for at in 0..text.len() {
        let right = is_answered(tally.alloc(), text, at)?;
        tally.note(right, text, "a place behind the text without a byte")?;
    }
    Ok(())
}

/// The kind and the place of the fault of some bytes.
fn fault(alloc: Global, bytes: &[u8]) -> anyhow::Result<String> {
    match pj_lex::tokens(alloc, bytes) {
        Ok(_) => Ok(String::from_str(alloc, "none")?),
        Err(SyntaxFault::Syntax { place, kind }) => Ok(format!(in alloc; "{kind:?} {place}")?),
        Err(SyntaxFault::NoMemory) => Err(anyhow!("no memory")),
    }
}

/// Tries bytes for which this fault should come.
fn expect_fault(
    tally: &mut Tally<'_>,
    row: &str,
    bytes: &[u8],
    kind: &str,
    place: usize,
) -> anyhow::Result<()> {
    let wanted = format!(in tally.alloc(); "{kind} {place}")?;
    let found = fault(tally.alloc(), bytes)?;
    tally.expect(row, wanted.as_str(), found.as_str())
}

/// Tries a text that goes on with no piece.
pub fn try_token_fault(tally: &mut Tally<'_>, line: &str) -> anyhow::Result<()> {
    let (kind, text) = halves(line);
    let marked = unescaped(tally.alloc(), text)?;
    let place = marked.place.unwrap_or(0);
    expect_fault(tally, line, marked.text.as_bytes(), kind, place)
}

/// Tries bytes that stop being UTF-8 at a place.
pub fn try_no_text(tally: &mut Tally<'_>, line: &str) -> anyhow::Result<()> {
    let (place, digits) = halves(line);
    let place = place.parse::<usize>()?;
    let mut bytes = Vec::new(tally.alloc());
    add_hex(digits, &mut bytes)?;
    expect_fault(tally, line, bytes.as_slice(), "Utf8", place)
}

/// How many tokens a text and a line end have together, and 0 where they have a fault.
fn count(alloc: Global, text: &str) -> Result<usize, AllocError> {
    let ended = format!(in alloc; "{text}\n")?;
    match pj_lex::tokens(alloc, ended.as_bytes()) {
        Ok(list) => Ok(list.len()),
        Err(_) => Ok(0),
    }
}

/// Tries a text behind which a line goes on or ends.
pub fn try_line_end(tally: &mut Tally<'_>, line: &str) -> anyhow::Result<()> {
    let (wanted, text) = halves(line);
    let right = count(tally.alloc(), text)? == wanted.parse::<usize>()?;
    tally.note(right, line, "another count")
}

/// Tries a name of so many letters.
fn try_name(tally: &mut Tally<'_>, count: usize, wanted: &str) -> anyhow::Result<()> {
    let letters = vec![in tally.alloc(); b'a'; count]?;
    let found = fault(tally.alloc(), letters.as_slice())?;
    tally.expect("a long name", wanted, found.as_str())
}

/// Tries names of 255 and of 256 letters.
pub fn long_names(tally: &mut Tally<'_>) -> anyhow::Result<()> {
    try_name(tally, 255, "none")?;
    try_name(tally, 256, "Token 0")?;
    tally.end("long names")
}
