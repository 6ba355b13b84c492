//! Whether two words look alike.

/// The shortest words that look alike with one letter changed.
const SHORTEST: usize = 4;

/// How many bytes two words have in common from their fronts on.
fn common_front(one: &[u8], other: &[u8]) -> usize {
    let most = one.len().min(other.len());
    for index in 0..most {
        if one[index] != other[index] {
            return index;
        }
    }
    most
}

/// How many bytes two words have in common from their ends on.
fn common_back(one: &[u8], other: &[u8]) -> usize {
    let most = one.len().min(other.len());
    for index in 0..most {
        if one[one.len() - 1 - index] != other[other.len() - 1 - index] {
            return index;
        }
    }
    most
}

/// Whether one letter is changed, left out or added.
fn is_one_edit(one: &[u8], other: &[u8]) -> bool {
    let longer = one.len().max(other.len());
    let common = common_front(one, other).saturating_add(common_back(one, other));
    one.len().abs_diff(other.len()) <= 1 && longer <= common.saturating_add(1)
}

/// Whether two words look alike: they are the same, but for the case of letters, or, of four letters at least, one letter is
/// changed, left out or added.
pub(crate) fn look_alike(one: &[u8], other: &[u8]) -> bool {
    one.eq_ignore_ascii_case(other)
        || (one.len().min(other.len()) >= SHORTEST && is_one_edit(one, other))
}
