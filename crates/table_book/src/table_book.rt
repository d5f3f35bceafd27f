// A book that has a cell for every pair, so that it is never full for a new one.
use super::cells::Cells;
use books::{Book, Reading, Sizes};
use refusals::Refusal;

#[derive(Drop)]
pub struct TableBook {
    sizes: Sizes,
    cells: Cells,
}

impl TableBook {
    ghost use Rattle.books.specs.Meaning.{Blank};
    ghost use Rattle.table_book.specs.Table.{table_meaning};

    // An empty book.
    pub fn new(sizes: Sizes) -> TableBook
        ensures { Blank sizes.packages sizes.translators (table_meaning result) }
    {
        TableBook {
            sizes,
            cells: Cells::blank(),
        }
    }
}

impl Reading for TableBook {
    ghost use Rattle.table_book.specs.Table.{table_meaning};
    ghost use Rattle.std.proofs.Common.{rules};

    ghost meaning = { table_meaning };

    ghost sound = { Prim.search rules };

    fn packages(&self) -> u8 {
        self.sizes.packages()
    }

    fn translators(&self) -> u8 {
        self.sizes.translators()
    }

    fn grade_of(&self, pkg: u32, translator: u32) -> Option<u32> {
        self.cells.grade_at(self.sizes.pair(pkg, translator)?)
    }
}

impl Book for TableBook {
    ghost use Rattle.std.proofs.Common.{rules};

    const LIMIT: u16 = 3072;

    ghost LIMIT = { 3072 };

    ghost limited = { Prim.search rules };

    fn put(&mut self, pkg: u32, translator: u32, code: u32) -> Result<(), Refusal> {
        let pair = self.sizes.pair(pkg, translator).ok_or(Refusal::Place)?;
        if code == 0 {
            return Err(Refusal::Grade);
        }
        self.cells.write(pair, code);
        Ok(())
    }

    fn take(&mut self, pkg: u32, translator: u32) -> Result<(), Refusal> {
        let pair = self.sizes.pair(pkg, translator).ok_or(Refusal::Place)?;
        if self.cells.grade_at(pair).is_none() {
            return Err(Refusal::NothingThere);
        }
        self.cells.write(pair, 0);
        Ok(())
    }
}
