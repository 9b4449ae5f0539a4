//! Texts at a limit of the language and just beyond it.

use std::alloc::Global;

/// A text, what is stated of it, and what it tries.
#[derive(Drop)]
pub struct Case {
    pub what: &'static str,
    pub text: String,
    pub stated: String,
}

/// A text between others, so many times.
fn repeated(
    alloc: Global,
    before: &str,
    piece: &str,
    count: usize,
    behind: &str,
) -> anyhow::Result<String> {
    let mut text = String::from_str(alloc, before)?;
    for _turn in 0..count {
        text.push_str(piece)?;
    }
    text.push_str(behind)?;
    Ok(text)
}

/// A text that nests so deep: something is opened so many times, and closed as often.
fn nested(
    alloc: Global,
    before: &str,
    open: &str,
    inside: &str,
    close: &str,
    count: usize,
) -> anyhow::Result<String> {
    let opened = repeated(alloc, before, open, count, inside)?;
    repeated(alloc, opened.as_str(), close, count, "")
}

/// A list of numbers, behind a letter each, with something between them.
fn numbered(
    alloc: Global,
    before: &str,
    letter: &str,
    between: &str,
    count: usize,
    behind: &str,
) -> anyhow::Result<String> {
    let mut text = String::from_str(alloc, before)?;
    for number in 1..count.saturating_add(1) {
        if number > 1 {
            text.push_str(between)?;
        }
        let one = format!(in alloc; "{letter}{number}")?;
        text.push_str(one.as_str())?;
    }
    text.push_str(behind)?;
    Ok(text)
}

/// What is stated of a text without a fault, or with one of this kind at the first byte of a piece.
fn stated(alloc: Global, text: &str, kind: &str, piece: &str) -> anyhow::Result<String> {
    let place = match text.find(piece) {
        Some(place) => place,
        None => 0,
    };
    Ok(format!(in alloc; "{kind} at {place}")?)
}

/// A text without a fault.
fn right(alloc: Global, what: &'static str, text: String) -> anyhow::Result<Case> {
    let stated = String::from_str(alloc, "none at 0")?;
    Ok(Case { what, text, stated })
}

/// A text with a fault at this byte.
fn wrong(
    alloc: Global,
    what: &'static str,
    text: String,
    kind: &str,
    place: usize,
) -> anyhow::Result<Case> {
    let stated = format!(in alloc; "{kind} at {place}")?;
    Ok(Case { what, text, stated })
}

/// Texts that nest 128 and 129 deep. A statement is one node, each pair of parentheses one, and what is inside another.
pub fn depths(alloc: Global) -> anyhow::Result<Vec<Case>> {
    let mut cases = Vec::new(alloc);
    let text = nested(alloc, "x = ", "(", "1", ")", 126)?;
    cases.push(right(alloc, "126 parentheses", text)?)?;
    let text = nested(alloc, "x = ", "(", "1", ")", 127)?;
    cases.push(wrong(alloc, "127 parentheses", text, "Deep", 130)?)?;
    let text = repeated(alloc, "x = ", "(", 127, "")?;
    cases.push(wrong(alloc, "127 parentheses that stay open", text, "Deep", 130)?)?;
    let text = nested(alloc, "f(x) = ", "(", "1", ")", 124)?;
    cases.push(right(alloc, "124 parentheses in a body", text)?)?;
    let text = nested(alloc, "f(x) = ", "(", "1", ")", 125)?;
    cases.push(wrong(alloc, "125 parentheses in a body", text, "Deep", 131)?)?;
    let text = nested(alloc, "", "while a\n", "break\n", "end\n", 127)?;
    cases.push(right(alloc, "127 loops", text)?)?;
    let text = nested(alloc, "", "while a\n", "break\n", "end\n", 128)?;
    cases.push(wrong(alloc, "128 loops", text, "Deep", 1016)?)?;
    let text = repeated(alloc, "x = a", " + a", 126, "")?;
    cases.push(right(alloc, "126 sums", text)?)?;
    let text = repeated(alloc, "x = a", " + a", 127, "")?;
    cases.push(wrong(alloc, "127 sums", text, "Deep", 510)?)?;
    let text = repeated(alloc, "x = a", ".b", 127, "")?;
    cases.push(wrong(alloc, "127 fields", text, "Deep", 257)?)?;
    Ok(cases)
}

/// Texts with as many members and names as there may be, and one more.
pub fn counts(alloc: Global) -> anyhow::Result<Vec<Case>> {
    let mut cases = Vec::new(alloc);
    let text = numbered(alloc, "f(", "a", ", ", 16, ") = 1")?;
    cases.push(right(alloc, "16 parameters", text)?)?;
    let text = numbered(alloc, "f(", "a", ", ", 17, ") = 1")?;
    cases.push(wrong(alloc, "17 parameters", text, "Many", 73)?)?;
    let text = numbered(alloc, "f(", "", ", ", 16, ")")?;
    cases.push(right(alloc, "16 arguments", text)?)?;
    let text = numbered(alloc, "f(", "", ", ", 17, ")")?;
    cases.push(wrong(alloc, "17 arguments", text, "Many", 57)?)?;
    let text = numbered(alloc, "struct S\n", "a", "\n", 16, "\nend")?;
    cases.push(right(alloc, "16 fields", text)?)?;
    let text = numbered(alloc, "struct S\n", "a", "\n", 17, "\nend")?;
    cases.push(wrong(alloc, "17 fields", text, "Many", 64)?)?;
    let text = numbered(alloc, "function f()\n", "a", " = 1\n", 1024, " = 1\nend")?;
    cases.push(right(alloc, "1,024 names", text)?)?;
    let text = numbered(alloc, "function f()\n", "a", " = 1\n", 1025, " = 1\nend")?;
    let stated = stated(alloc, text.as_str(), "Many", "a1025")?;
    cases.push(Case {
        what: "1,025 names",
        text,
        stated,
    })?;
    Ok(cases)
}

/// Names of 255 and of 256 bytes, and characters of two, three and four bytes before a fault.
pub fn names(alloc: Global) -> anyhow::Result<Vec<Case>> {
    let mut cases = Vec::new(alloc);
    let text = repeated(alloc, "", "a", 255, " = 1")?;
    cases.push(right(alloc, "a name of 255 bytes", text)?)?;
    let text = repeated(alloc, "", "a", 256, " = 1")?;
    cases.push(wrong(alloc, "a name of 256 bytes", text, "Token", 0)?)?;
    let text = repeated(alloc, "a", "é", 127, " = 1")?;
    cases.push(right(alloc, "a name of 255 bytes and 128 characters", text)?)?;
    let text = repeated(alloc, "", "é", 128, " = 1")?;
    cases.push(wrong(
        alloc,
        "a name of 256 bytes and 128 characters",
        text,
        "Token",
        0,
    )?)?;
    let text = String::from_str(alloc, "x = \"é€𝄞\" 1")?;
    cases.push(wrong(
        alloc,
        "a fault behind longer characters",
        text,
        "Grammar",
        16,
    )?)?;
    Ok(cases)
}
