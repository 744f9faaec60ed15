// The way to a new journal bookie over lent bytes.
ghost use Rattle.std.specs.Prelude.{◌≡◌, false, [], length, replicate};
ghost use Rattle.std.specs.Fn.{FnOnceReturnsAtMut};
ghost use Rattle.journals.specs.declared.journal.JournalBookie.{JournalBookie};
ghost use Rattle.journals.specs.Files.{laid_out, size_fits};
ghost use Rattle.journals.specs.Journal.{file_of, in_journal};
ghost use Rattle.journals.specs.SetUp.{SetUp};

use crate::journal::JournalBookie;
use messages::faults::SetUpFault;

// The sizes that a journal can have; the lesser has room for one record.
pub const MIN_JOURNAL_BYTES: usize = 84;

pub const MAX_JOURNAL_BYTES: usize = 65536;

// Sets a new journal bookie up over the memory and does the work with it; memory of the wrong size is refused and stays
// as it is. The bookie comes to the work, since a `Result` of it could not promise that refused memory stays.
pub fn with_journal<R, F: FnOnce(&mut JournalBookie<'_>) -> R + Drop>(
    file: &mut [u8],
    work: F,
) -> Result<R, SetUpFault>
    requires { F.IsAlwaysCallable work }
    ensures answer { SetUp
        (λ means answer. (before : JournalBookie) × (after : JournalBookie)
        × (in_journal before ≡ means)
        × (file_of before ≡ laid_out (length file.old) [] (replicate 16 false))
        × FnOnceReturnsAtMut F.FnOnce work before answer after)
        (length file.old) result }
    ensures refused { size_fits (length file.old) ≡ false → file.new ≡ file.old }
{
    if !(MIN_JOURNAL_BYTES..=MAX_JOURNAL_BYTES).contains(&file.len()) {
        return Err(SetUpFault::JournalSize);
    }
    let mut bookie = JournalBookie::new(file);
    Ok(work(&mut bookie))
}

// Who works with a journal bookie once it is set up, where what is promised of the work belongs to its type: whoever sets a
// journal up for any such user has nothing to ask of it, where a closure has to be one that can be called.
pub trait JournalUser {
    type Answer;
    // What it promises of its answer, by the bookie as it gets it: what that means, and its bytes.
    ghost promises: { Self → JournalBookie → Self.Answer → Type 0 };

    fn work(self, bookie: &mut JournalBookie<'_>) -> Self::Answer
        ensures { promises self bookie.old result };
}

// Sets a new journal bookie up over the memory and lets the user work with it; memory of the wrong size is refused and
// stays as it is.
pub fn lend_journal<U: JournalUser + Drop>(
    file: &mut [u8],
    user: U,
) -> Result<U::Answer, SetUpFault>
    ensures answer { SetUp
        (λ means answer. (before : JournalBookie)
        × (in_journal before ≡ means)
        × (file_of before ≡ laid_out (length file.old) [] (replicate 16 false))
        × U.promises user before answer)
        (length file.old) result }
    ensures refused { size_fits (length file.old) ≡ false → file.new ≡ file.old }
{
    // Taken apart, since of an answer `with_journal` says which bookie the closure was called on.
    let answer = with_journal(file, |bookie| user.work(bookie))?;
    Ok(answer)
}
