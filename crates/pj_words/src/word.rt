//! The reserved words.
ghost use Rattle.pj_words.specs.Reserved.{all_words, reserved_word, word_text};
ghost use Rattle.std.specs.Prelude.{◌≡◌, ℕ, List, ◌∷◌, find};
ghost use Rattle.std.specs.Str.{bytes_eq};

/// A word that can't be a name.
#[derive(Clone, Copy, Debug, PartialEq, Eq)]
pub enum Word {
    Module,
    End,
    Using,
    Struct,
    Function,
    If,
    ElseIf,
    Else,
    While,
    For,
    Break,
    Continue,
    Return,
    Global,
    Const,
    True,
    False,
    Nothing,
    Begin,
    Let,
    Do,
    Try,
    Catch,
    Finally,
    Quote,
    Macro,
    Import,
    Export,
    BareModule,
    Local,
    Where,
}

impl Word {
    /// The word's letters.
    pub fn text(self) -> &'static str
        ensures { result.now ≡ word_text self }
    {
        match self {
            Word::Module => "module",
            Word::End => "end",
            Word::Using => "using",
            Word::Struct => "struct",
            Word::Function => "function",
            Word::If => "if",
            Word::ElseIf => "elseif",
            Word::Else => "else",
            Word::While => "while",
            Word::For => "for",
            Word::Break => "break",
            Word::Continue => "continue",
            Word::Return => "return",
            Word::Global => "global",
            Word::Const => "const",
            Word::True => "true",
            Word::False => "false",
            Word::Nothing => "nothing",
            Word::Begin => "begin",
            Word::Let => "let",
            Word::Do => "do",
            Word::Try => "try",
            Word::Catch => "catch",
            Word::Finally => "finally",
            Word::Quote => "quote",
            Word::Macro => "macro",
            Word::Import => "import",
            Word::Export => "export",
            Word::BareModule => "baremodule",
            Word::Local => "local",
            Word::Where => "where",
        }
    }
}

/// The reserved words that begin with a letter.
#[tactic(auto, unfolding(crate::specs::Reserved::reserved_word, crate::specs::Reserved::all_words))]
fn words_from(letter: u8) -> &'static [Word]
    ensures { (rest : List ℕ) → find (λ word. bytes_eq (word_text word) (letter ∷ rest)) result.now ≡ reserved_word (letter ∷ rest) }
{
    match letter {
        b'b' => &[Word::Break, Word::Begin, Word::BareModule],
        b'c' => &[Word::Continue, Word::Const, Word::Catch],
        b'd' => &[Word::Do],
        b'e' => &[Word::End, Word::ElseIf, Word::Else, Word::Export],
        b'f' => &[Word::Function, Word::For, Word::False, Word::Finally],
        b'g' => &[Word::Global],
        b'i' => &[Word::If, Word::Import],
        b'l' => &[Word::Let, Word::Local],
        b'm' => &[Word::Module, Word::Macro],
        b'n' => &[Word::Nothing],
        b'q' => &[Word::Quote],
        b'r' => &[Word::Return],
        b's' => &[Word::Struct],
        b't' => &[Word::True, Word::Try],
        b'u' => &[Word::Using],
        b'w' => &[Word::While, Word::Where],
        _ => &[],
    }
}

/// The reserved word that a text is.
#[tactic(auto, unfolding(crate::specs::Reserved::reserved_word, crate::specs::Reserved::all_words))]
pub fn reserved_word(text: &str) -> Option<Word>
    ensures { result ≡ reserved_word text.now }
{
    match text.as_bytes() {
        [] => None,
        [first, ..] => words_from(*first)
            .iter()
            .find(|word| word.text() == text)
            .copied(),
    }
}
