//! Laws on tokens. There is no product code here.
ghost use Rattle.pj_lex.specs.declared.token.Token.{Token};
ghost use Rattle.pj_lex.specs.declared.token.Before.{Before};
ghost use Rattle.pj_lex.specs.Lexed.{Faulty, Lexed};
ghost use Rattle.pj_lex.specs.declared.sign.Sign.{Sign};
ghost use Rattle.pj_lex.specs.Comments.{past_comments};
ghost use Rattle.pj_lex.specs.Nested.{Closes};
ghost use Rattle.pj_lex.specs.Signs.{sign_at, sign_text};
ghost use Rattle.std.specs.List.{starts_with};
ghost use Rattle.std.specs.Prelude.{◌≡◌, ◌≤◌, IsSome, List, Some, length, nat_eq, true, ℕ};

/// From what stands before and from its place on, a text has at most one list of tokens; or it has at most one place at which
/// it goes on with no piece; and never both.
pub fn one_reading()
    ensures one_list { (before : Before) (at : ℕ) (cs : List ℕ) (tokens others : List Token) → Lexed before at cs tokens → Lexed before at cs others → tokens ≡ others }
    ensures one_place { (before : Before) (at : ℕ) (cs : List ℕ) (place other : ℕ) → Faulty before at cs place → Faulty before at cs other → place ≡ other }
    ensures never_both { (before : Before) (at : ℕ) (cs : List ℕ) (tokens : List Token) (place : ℕ) → Lexed before at cs tokens → Faulty before at cs place → ⊥ }
{}

/// The sign that is read is the longest of those that stand at the front, and one is read where one stands there.
pub fn longest_signs()
    ensures longest_sign { (characters : List ℕ) (sign other : Sign) → sign_at characters ≡ Some sign → starts_with nat_eq characters (sign_text other) ≡ true → length (sign_text other) ≤ length (sign_text sign) }
    ensures some_sign { (characters : List ℕ) (sign : Sign) → starts_with nat_eq characters (sign_text sign) ≡ true → IsSome (sign_at characters) }
{}

/// What is read behind a comment's `#=` is what follows it as comments nest.
pub fn nested_comments()
    ensures read { (characters rest : List ℕ) → past_comments 1 characters ≡ Some rest → Closes characters rest }
    ensures closed { (characters rest : List ℕ) → Closes characters rest → past_comments 1 characters ≡ Some rest }
{}
