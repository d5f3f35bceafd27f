// The cells of a table: 48 rows of 64 codes, where 0 means no grade.
ghost use Rattle.std.specs.Prelude.{◌≡◌, ◌<◌, length, replicate, slice_index, slice_set};
ghost use Rattle.table_book.specs.Cells.{place, grade_in};

use books::Pair;

const ROW: u32 = 64;

#[derive(Drop)]
pub(crate) struct Cells {
    // a rule of the project names this form: an array of numbers, 0 for none
    codes: [u32; 3072],
    ghost whole: { length codes ≡ 3072 },
}

// Where the code of a pair stands.
fn place_of(pair: Pair) -> usize
    ensures place { result ≡ place pair.pkg pair.translator }
    ensures below { result < 3072 }
{
    ((pair.pkg - 1) * ROW + (pair.translator - 1)) as usize
}

impl Cells {
    // No grade anywhere.
    pub fn blank() -> Cells
        ensures { result.codes ≡ replicate 3072 0 }
    {
        Cells {
            codes: [0u32; 3072],
        }
    }

    pub fn grade_at(&self, pair: Pair) -> Option<u32>
        ensures { result ≡ grade_in (slice_index self.now.codes (place pair.pkg pair.translator)) }
    {
        match self.codes[place_of(pair)] {
            0 => None,
            code => Some(code),
        }
    }

    // Code 0 removes the grade.
    pub fn write(&mut self, pair: Pair, code: u32)
        ensures { self.new.codes ≡ slice_set self.old.codes (place pair.pkg pair.translator) code }
    {
        let at = place_of(pair);
        self.codes[at] = code;
    }
}
