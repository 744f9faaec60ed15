// The bytes of a journal: its header, its records and its writes.
ghost use Rattle.std.specs.Prelude.{◌≡◌, ◌+◌, ◌*◌, ◌≤◌, ◌++◌, length, map, take, drop, replicate};
ghost use Rattle.journals.specs.Numbers.{le4};
ghost use Rattle.journals.specs.Records.{record_image, record_of};
ghost use Rattle.journals.specs.Files.{header_image, entries_in};
ghost use Rattle.journals.specs.Headers.{header_in};

use crate::bytes::{RECORD_BYTES, image};
use crate::headers::{HEADER_BYTES, Header};
use messages::entries::Held;

// The file itself, which is lent, so that a journal allocates nothing. It has no facts of its own, so that its parts can
// be lent on.
#[derive(Drop)]
pub struct JournalFile<'a> {
    pub(crate) file: &'a mut [u8],
}

impl JournalFile<'_> {
    pub(crate) fn bytes(&self) -> &[u8]
        ensures { result.now ≡ self.now.file.now }
    {
        self.file
    }

    // What it begins with.
    pub(crate) fn header(&self) -> Header
        requires { 32 ≤ length self.now.file.now }
        ensures { result ≡ header_in self.now.file.now }
    {
        Header::read(self.file)
    }

    // The records so far.
    pub(crate) fn records(&self) -> &[[u8; RECORD_BYTES]]
        requires { 32 + 52 * le4 self.now.file.now 0 ≤ length self.now.file.now }
        ensures { map record_of result.now ≡ entries_in self.now.file.now }
    {
        let count = self.header().count as usize;
        let (records, _) = self.file[HEADER_BYTES..].as_chunks();
        &records[..count]
    }

    pub(crate) fn write_header(&mut self, header: Header)
        requires { 32 ≤ length self.old.file.now }
        ensures { self.new.file.now ≡ header_image header.count header.end header.fences header.size ++ drop 32 self.old.file.now }
    {
        self.file[0..HEADER_BYTES].copy_from_slice(&header.to_bytes());
    }

    pub(crate) fn write_record(&mut self, at: usize, held: &Held)
        requires { at + 52 ≤ length self.old.file.now }
        ensures { self.new.file.now ≡ take at self.old.file.now ++ (record_image held.now ++ drop (at + 52) self.old.file.now) }
    {
        self.file[at..at + RECORD_BYTES].copy_from_slice(&image(held));
    }

    // Writes zeros over the whole file.
    pub(crate) fn clear(&mut self)
        ensures { self.new.file.now ≡ replicate (length self.old.file.now) 0 }
    {
        self.file.fill(0);
    }
}
