// A pair of a package and a translator that lies within the limits.
ghost use Rattle.books.specs.Limits.{Within};

// Whoever is handed a pair need not check its numbers again. They start at 1.
#[derive(Clone, Copy)]
pub struct Pair {
    pub pkg: u32,
    pub translator: u32,
    ghost within: { Within pkg translator },
}
