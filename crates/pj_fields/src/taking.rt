ghost use Rattle.std.specs.Prelude.{◌≡◌, option_map};
ghost use Rattle.pj_fields.specs.Fields.{number_at, int_at};

/// The number at the front and the bytes after it.
#[tactic(auto, unfolding(crate::specs::Fields::number_at))]
pub fn take_number(bytes: &[u8]) -> Option<(u32, &[u8])>
    ensures { option_map (λ x. (x.0, x.1.now)) result ≡ number_at bytes.now }
{
    if bytes.len() < 4 {
        return None;
    }
    let (front, rest) = bytes.split_at(4);
    let value = u32::from_le_bytes([front[0], front[1], front[2], front[3]]);
    Some((value, rest))
}

/// The integer at the front and the bytes after it.
#[tactic(auto, unfolding(crate::specs::Fields::int_at))]
pub fn take_int(bytes: &[u8]) -> Option<(i64, &[u8])>
    ensures { option_map (λ x. (x.0, x.1.now)) result ≡ int_at bytes.now }
{
    if bytes.len() < 8 {
        return None;
    }
    let (front, rest) = bytes.split_at(8);
    let value = i64::from_le_bytes([
        front[0], front[1], front[2], front[3], front[4], front[5], front[6], front[7],
    ]);
    Some((value, rest))
}
