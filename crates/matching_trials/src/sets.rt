// Whether a set of packages in a buffer shows what it should, whichever set it is.
use books::Reading;
use grades::Kind;

fn is_member(set: &[u8], place: u8) -> bool {
    set.get(usize::from(place)) == Some(&1)
}

// A valid grade, and above the lowest where there is one.
fn counts<K: Kind>(grade: Option<u32>, lowest: Option<u32>) -> bool {
    grade.is_some_and(|code| {
        K::is_valid(code) && lowest.is_none_or(|lowest| K::is_above(code, lowest))
    })
}

fn is_reached<R: Reading, K: Kind>(
    grades: &R,
    set: &[u8],
    translator: u32,
    lowest: Option<u32>,
) -> bool {
    (0..grades.packages()).any(|k| {
        is_member(set, k) && counts::<K>(grades.grade_of(u32::from(k) + 1, translator), lowest)
    })
}

// Whether the members reach exactly one translator fewer than they are.
pub fn is_one_fewer<R: Reading, K: Kind>(grades: &R, set: &[u8], lowest: Option<u32>) -> bool {
    let members = (0..grades.packages())
        .filter(|k| is_member(set, *k))
        .count();
    let reached = (0..grades.translators())
        .filter(|j| is_reached::<R, K>(grades, set, u32::from(*j) + 1, lowest))
        .count();
    reached + 1 == members
}
