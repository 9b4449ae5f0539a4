//! Worked rows on the machine that reads the grammar, which the checker computes. There is no product code here.

ghost use Rattle.pj_grammar.specs.RowsExpressions.{calls, conditions, conditions_refused, levels, prefixes_and_fields, refused};
ghost use Rattle.pj_grammar.specs.RowsStatements.{assignments, assignments_refused, branches, branches_refused, evaluations, evaluations_refused, jumps, jumps_refused, loops, loops_refused, quoted, quoted_refused};
ghost use Rattle.pj_grammar.specs.RowsItems.{constants_and_uses, constants_and_uses_refused, declarations, declarations_refused, methods, methods_refused, types, types_refused};
ghost use Rattle.pj_grammar.specs.RowsPackages.{directives, directives_refused, headers, headers_refused, own_names, own_names_refused};
ghost use Rattle.pj_grammar.specs.RowsNeeds.{needs_of_blocks, needs_of_operators, needs_of_parentheses, needs_of_places};
ghost use Rattle.pj_grammar.specs.RowsPlaces.{places_of_arguments, places_of_assignments, places_of_parameters};

/// Expressions: their trees, how deep they nest, and where they are refused.
pub fn expressions_rows()
    ensures levels { levels }
    ensures conditions { conditions }
    ensures conditions_refused { conditions_refused }
    ensures prefixes_and_fields { prefixes_and_fields }
    ensures calls { calls }
    ensures refused { refused }
{}

/// Statements: assignments, jumps, branches, loops and evaluations.
pub fn statements_rows()
    ensures assignments { assignments }
    ensures assignments_refused { assignments_refused }
    ensures jumps { jumps }
    ensures jumps_refused { jumps_refused }
    ensures branches { branches }
    ensures branches_refused { branches_refused }
    ensures loops { loops }
    ensures loops_refused { loops_refused }
    ensures evaluations { evaluations }
    ensures evaluations_refused { evaluations_refused }
    ensures quoted { quoted }
    ensures quoted_refused { quoted_refused }
{}

/// Items of scripts: methods, declarations, types, constants and uses.
pub fn items_rows()
    ensures methods { methods }
    ensures methods_refused { methods_refused }
    ensures declarations { declarations }
    ensures declarations_refused { declarations_refused }
    ensures types { types }
    ensures types_refused { types_refused }
    ensures constants_and_uses { constants_and_uses }
    ensures constants_and_uses_refused { constants_and_uses_refused }
{}

/// Packages: their heads and ends, directives, and their own names.
pub fn packages_rows()
    ensures headers { headers }
    ensures headers_refused { headers_refused }
    ensures directives { directives }
    ensures directives_refused { directives_refused }
    ensures own_names { own_names }
    ensures own_names_refused { own_names_refused }
{}

/// Places.
pub fn places_rows()
    ensures places_of_arguments { places_of_arguments }
    ensures places_of_assignments { places_of_assignments }
    ensures places_of_parameters { places_of_parameters }
{}

/// How deep a text nests at least that begins with some words.
pub fn needs_rows()
    ensures needs_of_parentheses { needs_of_parentheses }
    ensures needs_of_places { needs_of_places }
    ensures needs_of_operators { needs_of_operators }
    ensures needs_of_blocks { needs_of_blocks }
{}
