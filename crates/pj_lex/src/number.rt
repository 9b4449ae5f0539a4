ghost use Rattle.pj_lex.specs.Characters.{is_digit};
ghost use Rattle.pj_lex.specs.Numbers.{digits, negative, positive};
ghost use Rattle.pj_lex.specs.Found.{Capped};
ghost use Rattle.std.specs.Prelude.{◌≡◌, ◌<◌, ◌≤◌, ◌^◌, ◌-◌, ◌*◌, ◌+◌, IsTrue, IfSome, IfNone, length, neg_ℤ, option_map, pos};

use crate::characters::{begins_with_digit, is_digit};

/// A number that is at most 2^63 and begins with this one, and what follows its digits.
#[tactic(auto, unfolding(crate::specs::Numbers::digits))]
fn digits(first_part: u64, characters: &[char]) -> Option<(u64, &[char])>
    requires { first_part ≤ 2 ^ 63 }
    ensures capped { Capped (digits first_part characters.now) result }
    ensures no_longer { IfSome result (λ found. length found.1.now ≤ length characters.now) }
{
    let mut value = first_part;
    let mut rest = characters;
    while let [first, more @ ..] = rest {
        if is_digit(*first) {
            let Some(next) = one_more(value, *first) else {
                return None;
            };
            value = next;
        } else if *first != '_' || !begins_with_digit(more) {
            break;
        }
        rest = more;
    }
    Some((value, rest))
}

/// One more digit behind a number, up to 2^63.
fn one_more(value: u64, digit: char) -> Option<u64>
    requires digit { IsTrue (is_digit digit) }
    ensures next { IfSome result (λ n. (n ≡ 10 * value + (digit - 48)) × (n ≤ 2 ^ 63)) }
    ensures past { IfNone result (2 ^ 63 < 10 * value + (digit - 48)) }
{
    const MOST: u64 = 1 << 63;
    if value > MOST / 10 {
        return None;
    }
    let next = 10 * value + u64::from(digit as u32 - 48);
    if next <= MOST { Some(next) } else { None }
}

/// An integer of 64 bits from its first digit and what stands behind that, and what follows it.
pub fn positive(first: char, characters: &[char]) -> Option<(i64, &[char])>
    requires { IsTrue (is_digit first) }
    ensures found { option_map (λ found. (found.0, found.1.now)) result ≡ positive (digits (first - 48) characters.now) }
    ensures no_longer { IfSome result (λ found. length found.1.now ≤ length characters.now) }
{
    let Some((value, rest)) = digits(u64::from(first as u32 - 48), characters) else {
        return None;
    };
    if value >= 1 << 63 {
        return None;
    }
    Some((value as i64, rest))
}

/// An integer of 64 bits from the digits behind its minus, and what follows it.
pub fn negative(characters: &[char]) -> Option<(i64, &[char])>
    ensures found { option_map (λ found. (found.0, found.1.now)) result ≡ negative (digits 0 characters.now) }
    ensures no_longer { IfSome result (λ found. length found.1.now ≤ length characters.now) }
{
    let Some((value, rest)) = digits(0, characters) else {
        return None;
    };
    Some((negated(value), rest))
}

fn negated(value: u64) -> i64
    requires { value ≤ 2 ^ 63 }
    ensures { result ≡ neg_ℤ (pos value) }
{
    if value == 0 {
        return 0;
    }
    -1 - (value - 1) as i64
}
