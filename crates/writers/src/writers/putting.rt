// The puts of a writer, and the close of its ledger.
ghost use Rattle.std.specs.Prelude.{◌≡◌};
ghost use Rattle.protocol.specs.Writers.{close_answer};
ghost use Rattle.writers.specs.Meaning.{meant};
ghost use Rattle.writers.specs.Puts.{Put, close_after, close_stored};

use super::Writer;
use layout::fragments::Layout;
use ledgers::ids::{Lac, LedgerId, Version};
use messages::faults::StoreFault;
use messages::metadata::LedgerState;
use protocol::faults::ClientFault;
use protocol::writers::WriterState;
use stores::calls::Store;

impl Writer {
    // Closes the ledger at the LAC, which it answers, or none where the ledger was lost to a recovery.
    pub fn close<S: Store>(
        &mut self,
        ledger: LedgerId,
        ledgers: &mut S,
    ) -> Result<Option<Lac>, ClientFault>
        ensures answer { result ≡ close_answer (meant self.old) (S.means ledgers.old) ledger }
        ensures after { meant self.new ≡ close_after (meant self.old) (S.means ledgers.old) ledger }
        ensures stored { S.means ledgers.new ≡ close_stored (meant self.old) (S.means ledgers.old) ledger }
    {
        self.ask_writing()?;
        if self.pending.len() > 0 {
            return Err(ClientFault::Pending);
        }
        let layout = self.layout;
        match self.put(ledger, LedgerState::Closed, &layout, self.lac, ledgers)? {
            Some(version) => {
                self.version = version;
                self.state = WriterState::Closed;
                Ok(Some(self.lac))
            }
            None => {
                self.lose();
                Ok(None)
            }
        }
    }

    // Puts the metadata of the ledger. Answers its new version, or none where another put came first.
    pub(crate) fn put<S: Store>(
        &self,
        ledger: LedgerId,
        state: LedgerState,
        layout: &Layout,
        closing: Lac,
        ledgers: &mut S,
    ) -> Result<Option<Version>, StoreFault>
        ensures { Put (S.means ledgers.old) ledger self.now.version state layout.now closing result (S.means ledgers.new) }
    {
        match ledgers.put(ledger, self.version, state, layout, closing) {
            Ok(version) => Ok(Some(version)),
            Err(StoreFault::Version) => Ok(None),
            Err(fault) => Err(fault),
        }
    }
}
