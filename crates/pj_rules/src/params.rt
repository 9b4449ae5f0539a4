//! Lists of parameters and fields.

ghost use Rattle.std.specs.Prelude.{◌≡◌};
ghost use Rattle.pj_rules.specs.Names.{text, stands_among, twice_named, params_are_ok};

use pj_base::Text;
use pj_tree::{Param, Sym};

/// The text of a name. A number without a string counts as the empty text.
#[tactic(auto, unfolding(crate::specs::Names::text, crate::specs::Names::strings_at))]
pub fn spelled<'a>(strings: &'a [Text], sym: &'a Sym) -> &'a [u8]
    ensures { result.now ≡ text strings.now sym.now }
{
    match sym {
        Sym::Text(held) => held.as_str().as_bytes(),
        Sym::Number(number) => match strings.get(*number as usize) {
            Some(held) => held.as_str().as_bytes(),
            None => &[],
        },
    }
}

/// Whether a parameter has this name.
#[tactic(auto, using(crate::proofs::ParamLaws::param_rules))]
fn is_name_of(strings: &[Text], name: &[u8], params: &[Param]) -> bool
    ensures { result ≡ stands_among strings.now name.now params.now }
{
    let mut found = false;
    for param in params {
        let same = name == spelled(strings, &param.name);
        found = found || same;
    }
    found
}

/// Whether two parameters have one name. Those without a name don't count.
#[tactic(auto, using(crate::proofs::ParamLaws::param_rules))]
fn have_name_twice(strings: &[Text], params: &[Param]) -> bool
    ensures { result ≡ twice_named strings.now params.now }
{
    let mut found = false;
    for (at, param) in params.iter().enumerate() {
        let name = spelled(strings, &param.name);
        let before = is_name_of(strings, name, &params[..at]);
        found = found || (!name.is_empty() && before);
    }
    found
}

/// Whether a list of parameters or fields keeps the rules: at most 16, and no name stands twice among them, those without
/// a name aside.
#[tactic(auto, using(crate::proofs::ParamLaws::param_rules))]
pub fn params_ok(strings: &[Text], params: &[Param]) -> bool
    ensures { result ≡ params_are_ok strings.now params.now }
{
    params.len() <= 16 && !have_name_twice(strings, params)
}
