// From one phase to the next.
ghost use Rattle.std.specs.Prelude.{◌≡◌};
ghost use Rattle.layout.specs.WriteSets.{no_marks};
ghost use Rattle.protocol.specs.Recoverers.{read_on, next};
ghost use Rattle.protocol.specs.declared.recoverers.Phase.TheVariants.{Writing};
ghost use Rattle.recoverers.specs.Replies.{is_awaited};

use ledgers::bodies::Body;
use ledgers::ids::{EntryId, Lac};
use messages::messages::Message;
use protocol::recoverers::{Phase, Recoverer};

// With so many entries settled the next is read, if there can be one.
pub(crate) fn read_on(settled: Lac) -> Phase
    ensures { result ≡ read_on settled.0 }
{
    if EntryId(settled.0).is_in_range() {
        Phase::Reading { absent: [false; 5] }
    } else {
        Phase::Ended
    }
}

// An entry that was found with this LAC and body is written back.
pub(crate) fn write_back(lac: Lac, body: Body) -> Phase
    ensures { result ≡ Writing no_marks lac body }
{
    Phase::Writing {
        good: [false; 5],
        lac,
        body,
    }
}

// One entry more, as long as there can be one.
pub(crate) fn one_more(settled: Lac) -> Lac
    ensures { result.0 ≡ next settled.0 }
{
    if EntryId(settled.0).is_in_range() {
        Lac(settled.0 + 1)
    } else {
        settled
    }
}

// Whether a reply is a fence answer of the ledger that is recovered, or any other for the entry after the settled ones.
pub(crate) fn is_awaited(recoverer: &Recoverer, reply: &Message) -> bool
    ensures { result ≡ is_awaited recoverer.now reply.now }
{
    match reply {
        Message::Fenced { ledger, .. } => *ledger == recoverer.ledger,
        Message::Absent { ledger, entry, .. }
        | Message::Found { ledger, entry, .. }
        | Message::RecoveryAdded { ledger, entry, .. } => {
            *ledger == recoverer.ledger && *entry == EntryId(recoverer.settled.0)
        }
        _ => false,
    }
}
