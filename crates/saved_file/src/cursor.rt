// A place in a lent file: the bytes before it have been read.
// A struct of the file and a place: a rule of the project names this form.
ghost use Rattle.std.specs.Prelude.{◌≤◌, length};

mod expected;
mod heads;
mod parts;
mod reads;

pub use expected::Expected;

#[derive(Drop)]
pub struct Cursor<'a> {
    file: &'a [u8],
    at: usize,
    ghost within: { at ≤ length file.now },
}
