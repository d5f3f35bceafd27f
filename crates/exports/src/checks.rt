// Whether codes are right in a kind.
ghost use Rattle.exports.specs.Kinds.{codes_right};
ghost use Rattle.std.specs.Prelude.{◌≡◌, take};

use grades::Kind;

fn codes_are_right<K: Kind>(codes: &[u32]) -> bool
    ensures { result ≡ codes_right K.valid codes.now }
{
    codes.iter().all(|&code| code == 0 || K::is_valid(code))
}

// Whether each of the first codes, or as many of them as are there, is 0 or valid. They are cut off
// first: a `take` would count beside the end at each of them.
pub(crate) fn first_are_right<K: Kind>(most: usize, codes: &[u32]) -> bool
    ensures { result ≡ codes_right K.valid (take most codes.now) }
{
    codes_are_right::<K>(&codes[..most.min(codes.len())])
}
