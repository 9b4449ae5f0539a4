//! Where a token stands in its text. specs/Places gives its form in specs/Tokens of pj_grammar. There is nothing to prove here.

/// Where a token stands: its first byte, the byte behind it, and whether blank space stands directly before it.
#[derive(Clone, Copy)]
pub struct Place {
    pub start: usize,
    pub end: usize,
    pub blank: bool,
}
