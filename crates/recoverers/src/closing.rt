// How a recovery begins and how it ends, at the store.
ghost use Rattle.std.specs.Prelude.{◌≡◌, if◌then◌else◌};
ghost use Rattle.protocol.specs.Recoverers.{recover_store, new_recoverer, is_ended, finish_answer, finish_store};
ghost use Rattle.recoverers.specs.Beginnings.{begin_recovery};

use layout::fragments::Layout;
use ledgers::ids::{Lac, LedgerId, Version};
use messages::faults::StoreFault;
use messages::metadata::LedgerState;
use protocol::faults::ClientFault;
use protocol::recoverers::{Phase, Recoverer};
use stores::calls::Store;

// Takes a ledger over: an open one is put in recovery, one in recovery is taken as read, and a closed one is refused.
#[tactic(auto, using(crate::proofs::Found::begun_open, crate::proofs::Found::begun_again))]
pub fn begin<S: Store>(ledgers: &mut S, ledger: LedgerId) -> Result<Recoverer, ClientFault>
    ensures answer { result ≡ begin_recovery (S.means ledgers.old) ledger }
    ensures after { S.means ledgers.new ≡ recover_store (S.means ledgers.old) ledger }
{
    let found = ledgers.get(ledger)?;
    let version = match found.state {
        LedgerState::Open => ledgers.put(
            ledger,
            found.version,
            LedgerState::InRecovery,
            &found.layout,
            Lac(0),
        )?,
        LedgerState::InRecovery => found.version,
        LedgerState::Closed => return Err(ClientFault::Closed),
    };
    Ok(new_recoverer(ledger, version, &found.layout))
}

// It fences first. Every entry before the last fragment's first is settled, since an ensemble changes only behind confirmed
// entries.
fn new_recoverer(ledger: LedgerId, version: Version, layout: &Layout) -> Recoverer
    ensures { result ≡ new_recoverer ledger version layout.now }
{
    Recoverer {
        phase: Phase::Fencing { marks: [false; 5] },
        ledger,
        version,
        layout: *layout,
        settled: Lac(layout.last_fragment().first.0),
    }
}

// Closes the ledger of a recovery that has ended, and answers the closing entry: that of whoever was quicker, where another
// closed it first.
pub fn finish<S: Store>(recoverer: &Recoverer, ledgers: &mut S) -> Result<Lac, ClientFault>
    ensures answer { result ≡ finish_answer recoverer.now (S.means ledgers.old) }
    ensures after { S.means ledgers.new ≡ (if is_ended recoverer.now.phase then finish_store recoverer.now (S.means ledgers.old) else S.means ledgers.old) }
{
    if !matches!(recoverer.phase, Phase::Ended) {
        return Err(ClientFault::Unfinished);
    }
    match ledgers.put(
        recoverer.ledger,
        recoverer.version,
        LedgerState::Closed,
        &recoverer.layout,
        recoverer.settled,
    ) {
        Ok(_) => Ok(recoverer.settled),
        Err(StoreFault::Version) => Ok(ledgers.get(recoverer.ledger)?.closing),
        Err(fault) => Err(fault.into()),
    }
}
