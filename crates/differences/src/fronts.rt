// What stands before the bodies of a stroke's store.
ghost use Rattle.std.specs.Prelude.{false, ◌≡◌, ◌≤◌, eqb, length};
ghost use Rattle.outline.specs.Layout.{edition_number, kerb_kind, front_bytes};
ghost use Rattle.outline.specs.Stores.{edition_in, edition_of, kind_in, grade_in, count_in, edges_in};
ghost use Rattle.outline.specs.declared.Form.TheVariants.{Stroke};

use outline::layout::HEADER_WORDS;
use outline::{Edition, Form};
use words::word_at;

// A store whose header and table stand whole in its bytes, and what the header says: edition, grade and how many vertices. Its bodies may be
// anything.
#[derive(Clone, Copy)]
pub struct Front<'a> {
    pub store: &'a [u8],
    pub edition: Edition,
    pub grade: u32,
    pub n: usize,
    pub ghost numbered: { edition_number edition ≡ edition_number (edition_of (edition_in store.now)) },
    pub ghost stroke: { eqb (kind_in store.now) kerb_kind ≡ false },
    pub ghost graded: { grade ≡ grade_in store.now },
    pub ghost low: { 1 ≤ grade },
    pub ghost high: { grade ≤ 8 },
    pub ghost counted: { n ≡ count_in store.now },
    pub ghost few: { n ≤ 4096 },
    pub ghost long: { front_bytes (Stroke edition) n ≤ length store.now },
}

impl<'a> Front<'a> {
    // Where the table ends and the bodies begin.
    pub fn table_end(&self) -> usize
        ensures { result ≡ front_bytes (Stroke self.now.edition) self.now.n }
    {
        Form::Stroke(self.edition).front(self.n)
    }

    // How many edges the table says that body i has; the closing body is body n.
    pub fn old_count(&self, i: usize) -> u32
        requires { i ≤ self.now.n }
        ensures { result ≡ edges_in self.now.store.now i }
    {
        let wide = self.edition.entry_words();
        let entry = HEADER_WORDS + wide * i;
        if i < self.n {
            let last = wide - 1;
            word_at(self.store, entry + last)
        } else {
            word_at(self.store, entry)
        }
    }
}
