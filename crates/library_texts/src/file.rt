ghost use Rattle.std.specs.Prelude.{◌≡◌, map};
ghost use Rattle.library_texts.specs.Texts as texts;

use crate::texts::FILES;

/// A file of the library. Its name is none that a file of a project can have.
#[derive(Clone, Copy, Debug, PartialEq, Eq)]
pub struct LibraryFile {
    /// Its name, `$lib/` at the front and `.kerml` or `.sysml` at the end.
    pub name: &'static str,
    /// Its text, in UTF-8.
    pub text: &'static [u8],
}

/// Lends the library's files, in byte order of their names (the model libraries of KerML 9 and SysML
/// 9, as far as this product knows them).
pub fn library() -> &'static [LibraryFile]
    ensures { map (λ f. (f.name.now, f.text.now)) result.now ≡ texts.library }
{
    &FILES
}
