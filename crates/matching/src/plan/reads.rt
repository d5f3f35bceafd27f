// What a plan tells.
ghost use Rattle.matching.specs.Written.{number_at, numbers_of, room_for, written};
ghost use Rattle.refusals.specs.declared.refusal.Refusal.TheVariants.{Space};
ghost use Rattle.std.specs.Prelude.{◌≡◌, length};

use super::Plan;
use refusals::Refusal;

impl Plan {
    // How many packages it is for.
    pub fn len(&self) -> usize
        ensures { result ≡ length (numbers_of self.now) }
    {
        self.packages as usize
    }

    // Its translators in the order of the packages.
    fn numbers(&self) -> &[u16]
        ensures { result.now ≡ numbers_of self.now }
    {
        &self.numbers[..self.len()]
    }

    // The translator of a package, both by number, or none where there is no such package.
    pub fn translator_of(&self, pkg: u32) -> Option<u16>
        ensures { result ≡ number_at (numbers_of self.now) pkg }
    {
        let place = pkg.checked_sub(1)?;
        self.numbers().get(place as usize).copied()
    }

    // Writes its translators into the first places of a buffer, if there is room for all.
    pub fn write_into(&self, out: &mut [u16]) -> Result<(), Refusal>
        ensures answer { result ≡ room_for (numbers_of self.now) out.old }
        ensures after { out.new ≡ written (numbers_of self.now) out.old }
    {
        if out.len() < self.len() {
            return Err(Refusal::Space);
        }
        out[..self.len()].copy_from_slice(self.numbers());
        Ok(())
    }
}
