ghost use Rattle.pj_lex.specs.Comments.{past_comments, past_line};
ghost use Rattle.std.specs.Prelude.{◌≡◌, ◌<◌, ◌≤◌, ◌==◌, ◌&&◌, IfSome, length, option_map};

/// What follows a comment that goes to the line's end: that line end, if there is one.
#[tactic(auto, unfolding(crate::specs::Comments::past_line))]
pub fn past_line(characters: &[char]) -> &[char]
    ensures past { result.now ≡ past_line characters.now }
    ensures no_longer { length result.now ≤ length characters.now }
{
    let mut rest = characters;
    while let [first, more @ ..] = rest {
        if *first == '\n' {
            break;
        }
        rest = more;
    }
    rest
}

fn opens(first: char, second: char) -> bool
    ensures { result ≡ ((first == 35) && (second == 61)) }
{
    first == '#' && second == '='
}

fn closes(first: char, second: char) -> bool
    ensures { result ≡ ((first == 61) && (second == 35)) }
{
    first == '=' && second == '#'
}

/// What follows a comment that is open, and those in it, or None where one of them doesn't end.
#[tactic(auto, using(crate::proofs::Pairs::blank_first), unfolding(crate::specs::Comments::past_comments))]
pub fn past_comment(characters: &[char]) -> Option<&[char]>
    ensures past { option_map (λ rest. rest.now) result ≡ past_comments 1 characters.now }
    ensures shorter { IfSome result (λ rest. length rest.now < length characters.now) }
{
    let mut open_ones: usize = 1;
    // the character before, or a blank where it belongs to a pair already
    let mut last = ' ';
    let mut rest = characters;
    while let [character, more @ ..] = rest {
        if opens(last, *character) {
            open_ones += 1;
            last = ' ';
        } else if closes(last, *character) {
            if open_ones == 1 {
                return Some(more);
            }
            open_ones -= 1;
            last = ' ';
        } else {
            last = *character;
        }
        rest = more;
    }
    None
}
