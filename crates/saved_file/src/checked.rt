// A file that was found right, and its records.
ghost use Rattle.file_format.specs.Layout.{count_in};
ghost use Rattle.std.specs.Prelude.{◌≡◌};

mod reader;
mod reading;
mod records;

pub use reader::check_file;
pub use records::Records;

// Lent bytes, and how many grade records they hold.
#[derive(Drop)]
pub struct CheckedFile<'a> {
    file: &'a [u8],
    // kept beside the file, since a checked file tells it again and again
    count: u16,
    pub ghost counted: { count ≡ count_in file.now },
}
