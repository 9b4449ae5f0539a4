//! The lines of statuses.

ghost use Rattle.std.specs.Prelude.{◌≡◌, ◌++◌, IfOk, codes, string_bytes};
ghost use Rattle.std.specs.Fmt.{decimal};
ghost use Rattle.pj_meaning.specs.Endings.{refusal_line};
ghost use Rattle.pj_meaning.specs.Script.{Format, Full, IsLoaded, Relocation};
ghost use Rattle.pj_top.specs.Endings.{file_line, kind_word, told_at, syntax_line, unbuilt_line, missing_line, too_long_line, depot_line};

use crate::stop::Mistake;
use pj_base::{ByteList, NoMemory};
use pj_parse::SyntaxKind;
use std::alloc::Global;

/// The text before a file's name, the name, and the text behind it.
fn file_line(alloc: Global, before: &str, file: &str, behind: &str) -> Result<ByteList, NoMemory>
    ensures { IfOk result (λ line. line ≡ file_line before.now file.now behind.now) }
{
    let mut line = ByteList::new(alloc);
    line.extend(before.as_bytes())?;
    line.extend(file.as_bytes())?;
    line.extend(behind.as_bytes())?;
    Ok(line)
}

/// The word of a kind of mistake.
fn kind_word(kind: SyntaxKind) -> &'static str
    ensures { result.now ≡ kind_word kind }
{
    match kind {
        SyntaxKind::Utf8 => "Utf8",
        SyntaxKind::Token => "Token",
        SyntaxKind::Grammar => "Grammar",
        SyntaxKind::Deep => "Deep",
        SyntaxKind::Many => "Many",
        SyntaxKind::ModuleName => "ModuleName",
        SyntaxKind::Twice => "Twice",
        SyntaxKind::LoopName => "LoopName",
        SyntaxKind::GlobalLocal => "GlobalLocal",
        SyntaxKind::Outside => "Outside",
        SyntaxKind::Reserved => "Reserved",
        SyntaxKind::Unbuilt => "Unbuilt",
    }
}

/// What stands behind the file's name in the line of a mistake.
fn told_at(alloc: Global, mistake: Mistake) -> Result<String, NoMemory>
    ensures { IfOk result (λ text. string_bytes text ≡ told_at mistake.at mistake.kind) }
{
    let word = kind_word(mistake.kind);
    let line = mistake.at.line;
    let column = mistake.at.column;
    match format!(in alloc; " {line}:{column} {word}\n") {
        Ok(text) => Ok(text),
        Err(_) => Err(NoMemory),
    }
}

/// The line of a mistake in a file.
pub fn mistake_line(alloc: Global, file: &str, mistake: Mistake) -> Result<ByteList, NoMemory>
    ensures { IfOk result (λ line. line ≡ syntax_line file.now mistake.at mistake.kind) }
{
    let told = told_at(alloc, mistake)?;
    file_line(alloc, "syntax ", file, told.as_str())
}

/// The line of a text of another form than runs today.
pub fn unbuilt_line(alloc: Global, file: &str) -> Result<ByteList, NoMemory>
    ensures { IfOk result (λ line. line ≡ unbuilt_line file.now) }
{
    file_line(alloc, "syntax ", file, " 1:1 Unbuilt\n")
}

/// The line of a file that isn't there.
pub fn missing_line(alloc: Global, file: &str) -> Result<ByteList, NoMemory>
    ensures { IfOk result (λ line. line ≡ missing_line file.now) }
{
    file_line(alloc, "missing ", file, "\n")
}

/// The line of a file that is longer than its limit.
pub fn too_long_line(alloc: Global, file: &str) -> Result<ByteList, NoMemory>
    ensures { IfOk result (λ line. line ≡ too_long_line file.now) }
{
    file_line(alloc, "too long ", file, "\n")
}

/// The line of a depot's fault at a file.
pub fn depot_line(alloc: Global, file: &str) -> Result<ByteList, NoMemory>
    ensures { IfOk result (λ line. line ≡ depot_line file.now) }
{
    file_line(alloc, "depot failed ", file, "\n")
}

/// The line of the end of a budget.
pub fn steps_line(alloc: Global) -> Result<ByteList, NoMemory>
    ensures { IfOk result (λ line. line ≡ codes "steps\n") }
{
    file_line(alloc, "steps\n", "", "")
}

/// The text of a number between two others.
fn number_text(alloc: Global, before: &str, number: u32) -> Result<String, NoMemory>
    ensures { IfOk result (λ text. string_bytes text ≡ before.now ++ (decimal number ++ codes "\n")) }
{
    match format!(in alloc; "{before}{number}\n") {
        Ok(text) => Ok(text),
        Err(_) => Err(NoMemory),
    }
}

/// The line of an image whose section is of a wrong form.
pub fn format_line(alloc: Global, file: &str, section: u32) -> Result<ByteList, NoMemory>
    ensures { IfOk result (λ line. line ≡ refusal_line file.now (Format section)) }
{
    let told = number_text(alloc, " Format ", section)?;
    file_line(alloc, "refused ", file, told.as_str())
}

/// The line of an image of a name of which one is loaded.
pub fn loaded_line(alloc: Global, file: &str) -> Result<ByteList, NoMemory>
    ensures { IfOk result (λ line. line ≡ refusal_line file.now IsLoaded) }
{
    file_line(alloc, "refused ", file, " Loaded\n")
}

/// The line of an image with an entry that doesn't fit.
pub fn relocation_line(alloc: Global, file: &str, entry: u32) -> Result<ByteList, NoMemory>
    ensures { IfOk result (λ line. line ≡ refusal_line file.now (Relocation entry)) }
{
    let told = number_text(alloc, " Relocation ", entry)?;
    file_line(alloc, "refused ", file, told.as_str())
}

/// The line of an image for which there is no room.
pub fn full_line(alloc: Global, file: &str) -> Result<ByteList, NoMemory>
    ensures { IfOk result (λ line. line ≡ refusal_line file.now Full) }
{
    file_line(alloc, "full ", file, "\n")
}
