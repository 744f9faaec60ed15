// A bookie in a journal, over bytes that are lent to it.
ghost use Rattle.std.specs.Prelude.{◌≡◌, ◌≤◌, true, length};
ghost use Rattle.journals.specs.Files.{all_fit, end_of, entries_in, fences_in, laid_out};

use crate::files::JournalFile;

#[derive(Drop)]
pub struct JournalBookie<'a> {
    journal: JournalFile<'a>,
    up: bool,
    // The file has a size that a journal can have,
    ghost least: { 84 ≤ length journal.file.now },
    ghost most: { length journal.file.now ≤ 65536 },
    // the records of its entries have room in it, and are of entries that there can be.
    ghost room: { end_of (entries_in journal.file.now) ≤ length journal.file.now },
    ghost sound: { all_fit (entries_in journal.file.now) ≡ true },
    // Its bytes are those laid out for what it holds, and no others: header, records and zeros behind them.
    ghost laid: { journal.file.now ≡ laid_out (length journal.file.now) (entries_in journal.file.now) (fences_in journal.file.now) },
}

pub mod calls;
