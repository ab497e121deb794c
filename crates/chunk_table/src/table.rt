// The table of contents: its words, the entry of a key, and the first empty one.
ghost use Rattle.std.specs.Prelude.{◌≡◌, true, false, ◌+◌, ◌≤◌, ◌<◌, length, get_or, ℕ, MatchOption};
ghost use Rattle.chunk_table.specs.Tables.{table_bytes, front_in, entry_count, entry_word, field_place, field_in, used_at, damaged_in, holds_key, key_entry, empty_entry};

use words::word_from;

pub const MOST_ENTRIES: usize = 1024;

pub const MOST_BYTES: usize = 4294967295;

pub const TABLE_HEAD: usize = 4;

pub const TABLE_ENTRY: usize = 12;

// A word of an entry.
#[derive(Clone, Copy)]
pub enum Field {
    Key,
    Offset,
    Size,
}

impl Field {
    // Where it stands in the first entry.
    pub fn place(self) -> usize
        ensures { (result ≡ field_place self) × (result ≤ 12) }
    {
        match self {
            Field::Key => 4,
            Field::Offset => 8,
            Field::Size => 12,
        }
    }
}

// A word of entry i: 4 its key, 8 its offset, 12 its length.
pub fn word_of(c: &[u8], i: usize, field: usize) -> usize
    requires { (table_bytes (i + 1) ≤ length c.now) × (field ≤ 12) }
    ensures { (result ≡ entry_word c.now field i) × (result < 4294967296) }
{
    word_from(c, field + TABLE_ENTRY * i) as usize
}

// The number of entries.
pub fn entry_count(c: &[u8]) -> usize
    requires { 4 ≤ length c.now }
    ensures { result ≡ entry_count c.now }
{
    word_from(c, 0) as usize
}

// One word of each entry, by its place in the first: what a table is sorted on.
#[derive(Clone, Copy)]
pub struct Column<'a> {
    pub bytes: &'a [u8],
    pub entries: usize,
    pub place: usize,
    pub ghost each: { (k : ℕ) → get_or bytes.now k 0 < 256 },
    pub ghost few: { entries ≤ 1024 },
    pub ghost inside: { table_bytes entries ≤ length bytes.now },
    pub ghost within: { place ≤ 12 },
}

impl<'a> Column<'a> {
    // The word of entry i.
    pub fn word(&self, i: usize) -> usize
        requires { i < self.now.entries }
        ensures { (result ≡ entry_word self.now.bytes.now self.now.place i) × (result < 4294967296) }
    {
        word_of(self.bytes, i, self.place)
    }

    // Whether entry i is in use.
    pub fn is_used(&self, i: usize) -> bool
        requires { i < self.now.entries }
        ensures { result ≡ used_at self.now.bytes.now i }
    {
        word_of(self.bytes, i, Field::Size.place()) != 0
    }
}

// The table that a chunk begins with, all of which lies inside the chunk.
#[derive(Clone, Copy)]
pub struct Table<'a> {
    pub bytes: &'a [u8],
    pub entries: usize,
    pub ghost each: { (k : ℕ) → get_or bytes.now k 0 < 256 },
    pub ghost small: { length bytes.now ≤ 4294967295 },
    pub ghost counted: { entries ≡ entry_count bytes.now },
    pub ghost few: { entries ≤ 1024 },
    pub ghost inside: { table_bytes entries ≤ length bytes.now },
}

impl<'a> Table<'a> {
    // The table of a chunk that is sound.
    pub fn of(bytes: &'a [u8]) -> Table<'a>
        requires { damaged_in bytes.now ≡ false }
        ensures { result.bytes.now ≡ bytes.now }
    {
        Table {
            bytes,
            entries: entry_count(bytes),
        }
    }

    // The table that a chunk begins with; none where it runs past the chunk, or it or the chunk is too long.
    pub fn read(bytes: &'a [u8]) -> Option<Table<'a>>
        ensures { MatchOption result (damaged_in bytes.now ≡ true) (λ t. t.bytes.now ≡ bytes.now) }
    {
        if MOST_BYTES < bytes.len() {
            return None;
        }
        if bytes.len() < TABLE_HEAD {
            return None;
        }
        let entries = entry_count(bytes);
        if MOST_ENTRIES < entries {
            return None;
        }
        if bytes.len() < TABLE_HEAD + TABLE_ENTRY * entries {
            return None;
        }
        Some(Table { bytes, entries })
    }

    // Where it ends.
    pub fn front(&self) -> usize
        ensures { result ≡ front_in self.now.bytes.now }
    {
        TABLE_HEAD + TABLE_ENTRY * self.entries
    }

    // A word of entry i.
    pub fn word(&self, i: usize, field: Field) -> usize
        requires { i < self.now.entries }
        ensures { (result ≡ field_in self.now.bytes.now field i) × (result < 4294967296) }
    {
        word_of(self.bytes, i, field.place())
    }

    // One word of each entry.
    pub fn column(&self, field: Field) -> Column<'a>
        ensures { (result.bytes.now ≡ self.now.bytes.now) × (result.entries ≡ self.now.entries) × (result.place ≡ field_place field) }
    {
        Column {
            bytes: self.bytes,
            entries: self.entries,
            place: field.place(),
        }
    }

    // Whether entry i is in use.
    pub fn is_used(&self, i: usize) -> bool
        requires { i < self.now.entries }
        ensures { result ≡ used_at self.now.bytes.now i }
    {
        self.word(i, Field::Size) != 0
    }

    // Whether entry i is in use and has the key.
    fn has_key(&self, key: u32, i: usize) -> bool
        requires { i < self.now.entries }
        ensures { result ≡ holds_key self.now.bytes.now key i }
    {
        self.is_used(i) && self.word(i, Field::Key) == key as usize
    }

    // The entry in use with a key.
    pub fn key_entry(&self, key: u32) -> Option<usize>
        ensures { MatchOption result (key_entry self.now.bytes.now key ≡ entry_count self.now.bytes.now) (λ i. (i ≡ key_entry self.now.bytes.now key) × (i < self.now.entries)) }
    {
        for i in 0..self.entries {
            if self.has_key(key, i) {
                return Some(i);
            }
        }
        None
    }

    // The first empty entry.
    pub fn empty_entry(&self) -> Option<usize>
        ensures { MatchOption result (empty_entry self.now.bytes.now ≡ entry_count self.now.bytes.now) (λ i. (i ≡ empty_entry self.now.bytes.now) × (i < self.now.entries)) }
    {
        for i in 0..self.entries {
            if !self.is_used(i) {
                return Some(i);
            }
        }
        None
    }
}
