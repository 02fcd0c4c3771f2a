//! An opened file: its reader, together with its name.
ghost use Rattle.std.specs.Prelude.{◌≡◌};

use tl_segments::CountyFile;

/// The name of a file.
#[derive(Clone, Copy)]
pub enum FileName<'a> {
    Path(&'a str),
    /// The name of a county's file in the data folder.
    OfCounty {
        folder: &'a str,
        code: &'a str,
        file: CountyFile,
    },
}

/// An opened file. Only this crate makes one: [`open`](crate::open), with the name that it opens, and what closes the files of a county, with the
/// folder and the code that it is given.
pub struct OpenFile<'a, R> {
    pub(crate) name: FileName<'a>,
    pub(crate) reader: R,
}

impl<'a, R> OpenFile<'a, R> {
    /// Returns the file's name and its reader.
    pub fn into_parts(self) -> (FileName<'a>, R)
        ensures { result ≡ (self.entry.name, self.entry.reader) }
    {
        let OpenFile { name, reader } = self;
        (name, reader)
    }
}
