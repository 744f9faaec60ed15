// A journal bookie is set up, shows its file, and is a bookie.
ghost use Rattle.std.specs.Prelude.{◌≡◌, ◌≤◌, true, false, [], length, map, replicate};
ghost use Rattle.protocol.specs.Bookies.{add_fits, holding, new_bookie};
ghost use Rattle.journals.specs.Files.{laid_out, size_fits, space_behind};
ghost use Rattle.journals.specs.Headers.{header_of};
ghost use Rattle.journals.specs.Records.{record_of};
ghost use Rattle.journals.specs.Journal.{file_of, in_journal};

use super::JournalBookie;
use crate::bytes::{RECORD_BYTES, record_in};
use crate::fences::{has_fence, with_fence};
use crate::files::JournalFile;
use crate::headers::{HEADER_BYTES, Header};
use bookies::searches::{find, highest};
use bookies::storage::Storage;
use ledgers::ids::{EntryId, Lac, LedgerId};
use messages::entries::Held;
use messages::faults::BookieFault;

impl<'a> JournalBookie<'a> {
    // A new bookie in a file of a size that a journal can have.
    pub(crate) fn new(file: &'a mut [u8]) -> Self
        requires { size_fits (length file.old) ≡ true }
        ensures means { in_journal result ≡ new_bookie (space_behind (length file.old) []) }
        ensures bytes { file_of result ≡ laid_out (length file.old) [] (replicate 16 false) }
    {
        let size = file.len() as u32;
        let mut journal = JournalFile { file };
        journal.clear();
        journal.write_header(Header {
            count: 0,
            end: HEADER_BYTES as u32,
            fences: 0,
            size,
        });
        JournalBookie { journal, up: true }
    }

    // A new bookie in a file of 16,384 bytes, whose type leaves nothing to refuse.
    pub fn standard(file: &'a mut [u8; 16384]) -> Self
        ensures means { in_journal result ≡ new_bookie (space_behind 16384 []) }
        ensures bytes { file_of result ≡ laid_out 16384 [] (replicate 16 false) }
    {
        JournalBookie::new(&mut file[..])
    }

    // The bytes of its file: those laid out for its entries and fences.
    pub fn bytes(&self) -> &[u8]
        ensures whole { result.now ≡ file_of self.now }
        ensures laid { result.now ≡ laid_out (length result.now) (in_journal self.now).entries (in_journal self.now).fences }
    {
        &self.journal.bytes()[..]
    }

    // The header of its file: that of its entries and fences.
    #[tactic(auto, using(crate::proofs::Owned::header_owned))]
    fn header(&self) -> Header
        ensures { result ≡ header_of (length (file_of self.now)) (in_journal self.now).entries (in_journal self.now).fences }
    {
        self.journal.header()
    }

    // The records of its entries.
    #[tactic(auto, using(crate::proofs::Owned::said))]
    fn records(&self) -> &[[u8; RECORD_BYTES]]
        ensures { map record_of result.now ≡ (in_journal self.now).entries }
    {
        self.journal.records()
    }

    // How many whole records still fit.
    #[tactic(auto, using(crate::proofs::Owned::said))]
    fn space(&self) -> usize
        ensures { result ≡ (in_journal self.now).space }
    {
        let header = self.header();
        (header.size - header.end) as usize / RECORD_BYTES
    }

    // Writes the record of one entry more, which there is space for, at the free end, and then the header.
    fn write(&mut self, held: Held)
        requires { (add_fits held.ledger held.entry held.lac ≡ true) × (1 ≤ (in_journal self.old).space) }
        ensures { in_journal self.new ≡ holding (in_journal self.old) held }
    {
        let header = self.header();
        self.journal.write_record(header.end as usize, &held);
        self.journal.write_header(Header {
            count: header.count + 1,
            end: header.end + RECORD_BYTES as u32,
            ..header
        });
    }
}

impl<'a> Storage for JournalBookie<'a> {
    ghost means = { in_journal };

    fn is_up(&self) -> bool {
        self.up
    }

    #[tactic(auto, using(crate::proofs::Owned::flags_owned))]
    fn is_fenced(&self, ledger: LedgerId) -> bool {
        has_fence(self.header().fences, ledger)
    }

    fn copy_of(&self, ledger: LedgerId, number: EntryId) -> Option<Held> {
        find(self.records().iter().map(record_in), ledger, number)
    }

    fn highest_lac(&self, ledger: LedgerId) -> Lac {
        highest(self.records().iter().map(record_in), ledger)
    }

    fn keep(&mut self, held: Held) -> Result<(), BookieFault> {
        if self.space() < 1 {
            return Err(BookieFault::Full);
        }
        self.write(held);
        Ok(())
    }

    // A fence writes the header alone.
    fn mark_fenced(&mut self, ledger: LedgerId) {
        let header = self.header();
        self.journal.write_header(Header {
            fences: with_fence(header.fences, ledger),
            ..header
        });
    }

    fn turn(&mut self, up: bool) {
        self.up = up;
    }
}
