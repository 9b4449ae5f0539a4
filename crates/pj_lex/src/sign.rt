//! The operators and other signs.
ghost use Rattle.pj_lex.specs.Signs.{all_signs, is_operator, sign_at, sign_text};
ghost use Rattle.std.specs.Prelude.{◌≡◌, ◌<◌, ◌≤◌, IfSome, length};

/// An operator or another sign of one to three characters.
#[derive(Clone, Copy, Debug, PartialEq, Eq)]
pub enum Sign {
    Same,
    NotSame,
    AddAssign,
    SubtractAssign,
    MultiplyAssign,
    Equal,
    NotEqual,
    LessOrEqual,
    GreaterOrEqual,
    And,
    Or,
    DoubleColon,
    Below,
    Comma,
    Assign,
    Plus,
    Minus,
    Times,
    Quotient,
    Remainder,
    Less,
    Greater,
    Question,
    Colon,
    LeftParen,
    RightParen,
    Dot,
    Not,
}

// longer ones first, so that the first that stands at a place is the longest
const ALL: [Sign; 28] = [
    Sign::Same,
    Sign::NotSame,
    Sign::AddAssign,
    Sign::SubtractAssign,
    Sign::MultiplyAssign,
    Sign::Equal,
    Sign::NotEqual,
    Sign::LessOrEqual,
    Sign::GreaterOrEqual,
    Sign::And,
    Sign::Or,
    Sign::DoubleColon,
    Sign::Below,
    Sign::Comma,
    Sign::Assign,
    Sign::Plus,
    Sign::Minus,
    Sign::Times,
    Sign::Quotient,
    Sign::Remainder,
    Sign::Less,
    Sign::Greater,
    Sign::Question,
    Sign::Colon,
    Sign::LeftParen,
    Sign::RightParen,
    Sign::Dot,
    Sign::Not,
];

impl Sign {
    /// The characters of a sign.
    pub fn characters(self) -> &'static [char]
        ensures spelled { result.now ≡ sign_text self }
        ensures some { 0 < length result.now }
    {
        match self {
            Sign::Same => &['=', '=', '='],
            Sign::NotSame => &['!', '=', '='],
            Sign::AddAssign => &['+', '='],
            Sign::SubtractAssign => &['-', '='],
            Sign::MultiplyAssign => &['*', '='],
            Sign::Equal => &['=', '='],
            Sign::NotEqual => &['!', '='],
            Sign::LessOrEqual => &['<', '='],
            Sign::GreaterOrEqual => &['>', '='],
            Sign::And => &['&', '&'],
            Sign::Or => &['|', '|'],
            Sign::DoubleColon => &[':', ':'],
            Sign::Below => &['<', ':'],
            Sign::Comma => &[','],
            Sign::Assign => &['='],
            Sign::Plus => &['+'],
            Sign::Minus => &['-'],
            Sign::Times => &['*'],
            Sign::Quotient => &['÷'],
            Sign::Remainder => &['%'],
            Sign::Less => &['<'],
            Sign::Greater => &['>'],
            Sign::Question => &['?'],
            Sign::Colon => &[':'],
            Sign::LeftParen => &['('],
            Sign::RightParen => &[')'],
            Sign::Dot => &['.'],
            Sign::Not => &['!'],
        }
    }

    /// Whether a sign can stand behind `Base.:`, as the name of a function.
    pub fn is_operator(self) -> bool
        ensures { result ≡ is_operator self }
    {
        match self {
            Sign::Plus
            | Sign::Minus
            | Sign::Times
            | Sign::Quotient
            | Sign::Remainder
            | Sign::Equal
            | Sign::NotEqual
            | Sign::Less
            | Sign::LessOrEqual
            | Sign::Greater
            | Sign::GreaterOrEqual
            | Sign::Not => true,
            _ => false,
        }
    }
}

/// The longest sign at the front.
#[tactic(auto, using(crate::proofs::SignFits::sign_fits))]
pub fn sign_at(characters: &[char]) -> Option<Sign>
    ensures found { result ≡ sign_at characters.now }
    ensures within { IfSome result (λ sign. length (sign_text sign) ≤ length characters.now) }
{
    ALL.iter()
        .find(|sign| characters.starts_with(sign.characters()))
        .copied()
}
