// A table of codes that is read where it stands: no book is filled from it.
ghost use Rattle.std.specs.Prelude.{◌≡◌, ◌*◌};
ghost use Rattle.exports.specs.Table.{table_meaning};
ghost use Rattle.std.proofs.Common.{rules};

use books::{Reading, Sizes};

#[derive(Clone, Copy)]
pub(crate) struct CodeTable<'a> {
    pub sizes: Sizes,
    pub codes: &'a [u32],
}

// How many codes a table of these sizes has.
pub(crate) fn pairs_of(sizes: Sizes) -> usize
    ensures { result ≡ sizes.packages * sizes.translators }
{
    usize::from(sizes.packages()) * usize::from(sizes.translators())
}

impl Reading for CodeTable<'_> {
    ghost meaning = { table_meaning };

    ghost sound = { Prim.search rules };

    fn packages(&self) -> u8 {
        self.sizes.packages()
    }

    fn translators(&self) -> u8 {
        self.sizes.translators()
    }

    // Past the end of the codes there is no grade.
    fn grade_of(&self, pkg: u32, translator: u32) -> Option<u32> {
        let pair = self.sizes.pair(pkg, translator)?;
        let row = pair.pkg as usize - 1;
        let column = pair.translator as usize - 1;
        let place = row * usize::from(self.sizes.translators()) + column;
        self.codes.get(place).copied().filter(|&code| code != 0)
    }
}
