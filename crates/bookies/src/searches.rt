// Searches through entries as they come, one pass each, wherever they are kept.
ghost use Rattle.std.specs.Prelude.{◌≡◌, List};
ghost use Rattle.std.specs.Iterator.{IsFinite, AlwaysYields};
ghost use Rattle.messages.specs.declared.entries.Held.{Held};
ghost use Rattle.protocol.specs.Bookies.{find as copy_in, highest_lac};

use ledgers::ids::{EntryId, Lac, LedgerId};
use messages::entries::Held;

// The copy of an entry.
pub fn find<I: Iterator<Item = Held> + Drop>(
    mut entries: I,
    ledger: LedgerId,
    number: EntryId,
) -> Option<Held>
    requires can { I.can_next entries }
    requires finite { IsFinite (I.remaining entries) }
    ensures { (all : List Held) → AlwaysYields I.next_gives (λ h. h) entries all → result ≡ copy_in all ledger.0 number.0 }
{
    entries.find(|held| held.ledger == ledger && held.entry == number)
}

// The highest LAC among the entries of a ledger.
pub fn highest<I: Iterator<Item = Held> + Drop>(entries: I, ledger: LedgerId) -> Lac
    requires can { I.can_next entries }
    requires finite { IsFinite (I.remaining entries) }
    ensures { (all : List Held) → AlwaysYields I.next_gives (λ h. h) entries all → result.0 ≡ highest_lac all ledger.0 }
{
    entries
        .filter(|held| held.ledger == ledger)
        .fold(Lac(0), |best, held| best.max(held.lac))
}
