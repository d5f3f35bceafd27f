// One augmenting path: a package gets a translator, and those who had one keep one.
ghost use Rattle.std.specs.Prelude.{◌≡◌, ◌<◌, true, false};
ghost use Rattle.augmenting.specs.Owners.{Augmented, Closed, Free, Kept, Matching, Needed, Tried};

use super::{Owners, Pattern};

impl Owners {
    // Gives a package that has none the first translator that it can have. Translators that are
    // marked are left alone, and each that is tried is marked. Where none can be had, all is as it
    // was, and the marks say why.
    pub fn augment<P: Pattern>(&mut self, pattern: &P, pkg: u8, visited: &mut [bool; 64]) -> bool
        ensures kept { Kept visited.old self.old.places self.new.places }
        ensures found { result ≡ true → 0 < pkg
            → Matching (P.joins pattern.now) (P.translators pattern.now) self.old.places
            → Free self.old.places pkg
            → Augmented (P.joins pattern.now) (P.translators pattern.now) visited.old pkg self.old.places self.new.places }
        ensures same { result ≡ false → self.new.places ≡ self.old.places }
        ensures closed { result ≡ false → Closed (P.joins pattern.now) (P.translators pattern.now) self.old.places visited.old visited.new }
        ensures needed { result ≡ false → Needed (P.joins pattern.now) (P.translators pattern.now) pkg self.old.places visited.old visited.new }
        ensures tried { result ≡ false → Tried (P.joins pattern.now) pkg visited.new (P.translators pattern.now) }
    {
        // by index, since the call within needs all places and all marks
        for j in 0..pattern.translator_count() {
            let place = j as usize;
            if !visited[place] && pattern.may_join(pkg, j + 1) {
                visited[place] = true;
                let holder = self.places[place];
                self.places[place] = pkg;
                if holder == 0 || self.augment(pattern, holder, visited) {
                    return true;
                }
                self.places[place] = holder;
            }
        }
        false
    }
}
