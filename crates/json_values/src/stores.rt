// The stores that the texts of a table may be held in.
ghost use Rattle.std.specs.Prelude.{◌≡◌};
ghost use Rattle.json_values.specs.Meaning.{part_of};
ghost use Rattle.json_values.specs.Texts.{texts_of};

use super::parts::{Part, Source};
use super::store::Store;

// A store for each source.
#[derive(Clone, Copy)]
pub struct Stores<'a> {
    pub schema: &'a Store,
    pub record: &'a Store,
    pub older: &'a Store,
}

impl<'a> Stores<'a> {
    // A part of whichever store holds it. What passes the end of the store's texts is left out.
    pub fn text(self, part: Part) -> &'a [u8]
        ensures { result.now ≡ part_of (texts_of self.entry) part }
    {
        let store = match part.source {
            Source::Schema => self.schema,
            Source::Record => self.record,
            Source::Older => self.older,
        };
        part.of(store.text())
    }
}
