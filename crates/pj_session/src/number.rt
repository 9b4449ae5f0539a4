//! The evaluator of expressions of whole numbers, over trees as they stand.

ghost use Rattle.std.specs.Prelude.{◌≡◌, Some, map};
ghost use Rattle.pj_tree.specs.Reads.{expr_of, text_of_sym, texts_of};
ghost use Rattle.pj_content.specs.Content.{strings_in};
ghost use Rattle.pj_session.specs.Counting.{Counts, charged, operated};
ghost use Rattle.pj_session.specs.Numbers.{applied, argument_of, charge, number_in};

use pj_parts::ShortText;
use pj_tree::{Expr, Sym};
use sqlite_items::at;

/// The text of a name: one that is held, or the string of a number. A number without a string counts as the empty text.
pub fn text<'a>(strings: &'a [ShortText], name: &'a Sym) -> &'a str
    ensures { result.now ≡ text_of_sym (strings_in strings.now) name.now }
{
    match name {
        Sym::Text(text) => text.as_str(),
        Sym::Number(number) => match at(strings, *number as usize) {
            Some(text) => text.as_str(),
            None => "",
        },
    }
}

/// The argument of the first parameter of this name, or 0 where there is none.
fn argument(strings: &[ShortText], params: &[Sym], arguments: &[i64], name: &str) -> i64
    ensures { result ≡ argument_of (texts_of (strings_in strings.now) params.now) arguments.now name.now }
{
    let [param, params @ ..] = params else {
        return 0;
    };
    let [value, arguments @ ..] = arguments else {
        return 0;
    };
    if text(strings, param) == name {
        *value
    } else {
        argument(strings, params, arguments, name)
    }
}

/// What an operator gives, wrapping at 64 bits: `+`, `-`, or else `*`.
fn apply(operator: &str, left: i64, right: i64) -> i64
    ensures { result ≡ applied operator.now left right }
{
    if operator == "+" {
        left.wrapping_add(right)
    } else if operator == "-" {
        left.wrapping_sub(right)
    } else {
        left.wrapping_mul(right)
    }
}

/// Takes one charge, where there is one.
pub fn charge(left: &mut u64) -> Option<()>
    ensures { Counts result left.new (charged left.old) }
{
    *left = left.checked_sub(1)?;
    Some(())
}

/// What an operator gives, for a charge.
#[tactic(auto, unfolding(crate::specs::Numbers::charge))]
fn combined(operator: &str, x: i64, y: i64, left: &mut u64) -> Option<i64>
    ensures { Counts result left.new (charge left.old (λ n. Some (applied operator.now x y, n))) }
{
    charge(left)?;
    Some(apply(operator, x, y))
}

/// The value of an expression over parameters and their arguments, or none where a charge finds no budget. An expression
/// that isn't one of whole numbers has none.
#[cycle(number)]
#[tactic(auto, using(pj_tree::proofs::ExprReads::expr_reads, crate::proofs::Operands::two_operands))]
pub fn number(
    strings: &[ShortText],
    params: &[Sym],
    arguments: &[i64],
    e: &Expr,
    left: &mut u64,
) -> Option<i64>
    ensures { Counts result left.new (number_in (texts_of (strings_in strings.now) params.now) arguments.now (expr_of (strings_in strings.now) e.now) left.old) }
{
    match e {
        Expr::Int(value) => Some(*value),
        Expr::Local(name) => Some(argument(strings, params, arguments, text(strings, name))),
        Expr::Call(_, name, operands) => {
            let operator = text(strings, name);
            operation(
                strings,
                params,
                arguments,
                operator,
                operands.as_slice(),
                left,
            )
        }
        Expr::Nothing | Expr::False | Expr::True => None,
        Expr::Str(_) | Expr::Global(_, _) | Expr::Field(_, _) => None,
        Expr::CallLocal(_, _) | Expr::Latest(_, _) => None,
        Expr::And(_, _) | Expr::Or(_, _) | Expr::Cond(_, _, _) | Expr::Same(_, _) => None,
    }
}

/// What an operator gives for two operands, whose charges come before its own.
#[cycle(number)]
#[tactic(auto, using(pj_tree::proofs::ExprReads::expr_reads, crate::proofs::Operands::two_operands))]
fn operation(
    strings: &[ShortText],
    params: &[Sym],
    arguments: &[i64],
    operator: &str,
    operands: &[Expr],
    left: &mut u64,
) -> Option<i64>
    ensures { Counts result left.new (operated (texts_of (strings_in strings.now) params.now) arguments.now operator.now (map (expr_of (strings_in strings.now)) operands.now) left.old) }
{
    match operands {
        [a, b] => {
            let x = number(strings, params, arguments, a, left)?;
            let y = number(strings, params, arguments, b, left)?;
            combined(operator, x, y, left)
        }
        _ => None,
    }
}
