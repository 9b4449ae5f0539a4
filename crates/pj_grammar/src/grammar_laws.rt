//! Laws on the grammar and its machine. There is no product code here.
ghost use Rattle.pj_grammar.specs.Theorems.{Complete, CompleteExpressions, CompleteStatements, Completion, DeepFaults, EndsAccepted, GrammarFaults, LeadsOn, Monotone, NeedIsNesting, NoneBegins, NoneWithin, OneTree, Sound};

/// The machine reads each expression of the grammar, wherever one may stand, each statement, where statements stand, and each
/// text. What it accepts is a text, with the tree and the nesting that it gives. So a text has one tree, and where the machine has
/// no answer no text begins so. Where it has read a text, it needs what the text nests, and it needs no less behind more tokens: so
/// where it needs more than a limit, no text within the limit begins so. From wherever it stands, tokens lead on to a text, which
/// nests no deeper than it needs. So it tells where a list of tokens stops being the front of a text, and of one within a limit.
/// Where it has an answer behind the text's end, it has accepted.
pub fn grammar_laws()
    ensures complete_expressions { CompleteExpressions }
    ensures complete_statements { CompleteStatements }
    ensures complete { Complete }
    ensures sound { Sound }
    ensures one_tree { OneTree }
    ensures none_begins { NoneBegins }
    ensures need_is_nesting { NeedIsNesting }
    ensures monotone { Monotone }
    ensures none_within { NoneWithin }
    ensures leads_on { LeadsOn }
    ensures completion { Completion }
    ensures grammar_faults { GrammarFaults }
    ensures deep_faults { DeepFaults }
    ensures ends_accepted { EndsAccepted }
{}
