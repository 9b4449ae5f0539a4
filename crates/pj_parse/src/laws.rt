//! Laws of the definitions that say which texts are scripts and packages, and what is wrong with a text that is neither.

ghost use Rattle.pj_parse.specs.Laws.{IsCalled, NeverBoth, OneFault, OneSyntax};

/// A text has one syntax tree, or one fault at one place, and never both. A package has the name that was asked for.
pub fn text_laws()
    ensures one_syntax { OneSyntax }
    ensures one_fault { OneFault }
    ensures never_both { NeverBoth }
    ensures called { IsCalled }
{}
