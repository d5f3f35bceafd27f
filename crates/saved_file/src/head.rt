// What the record of section 1 says of a file by itself.
use books::Sizes;
use file_format::SheetRecord;
use grades::KindName;

mod alone;
mod reading;

pub use alone::check_by_itself;
pub use reading::read_head;

#[derive(Clone, Copy)]
pub struct Head {
    pub kind: KindName,
    pub sizes: Sizes,
}

impl From<Head> for SheetRecord {
    ghost use Rattle.saved_file.specs.ByItself.{three_of};
    ghost use Rattle.std.specs.Prelude.{◌≡◌};

    ghost from_gives = { λ head found. found ≡ three_of head };

    fn from(head: Head) -> SheetRecord {
        SheetRecord {
            kind: head.kind.into(),
            packages: head.sizes.packages(),
            translators: head.sizes.translators(),
        }
    }
}
