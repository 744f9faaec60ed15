// How a writer comes to be, and what it tells of itself.
ghost use Rattle.std.specs.Prelude.{◌≡◌};
ghost use Rattle.messages.specs.Faults.{when_ok};
ghost use Rattle.protocol.specs.Stores.{create_answer, create_after};
ghost use Rattle.protocol.specs.Writers.{no_writer, new_writer};
ghost use Rattle.writers.specs.Beginnings.{created_answer};
ghost use Rattle.writers.specs.Meaning.{meant};

use super::Writer;
use layout::fragments::Layout;
use ledgers::ids::{Lac, LedgerId, Version};
use messages::entries::PendingAdd;
use places::Blank;
use places::short_lists::ShortList;
use protocol::faults::ClientFault;
use protocol::writers::WriterState;
use stores::calls::Store;

impl Writer {
    // The writer of a ledger that is not there.
    pub fn absent() -> Writer
        ensures { meant result ≡ no_writer }
    {
        Writer {
            state: WriterState::Absent,
            layout: Layout::blank(),
            version: Version(0),
            lac: Lac(0),
            pending: ShortList::new(),
        }
    }

    // Creates a ledger, open and with this layout, of which it is the writer from then on.
    pub fn create<S: Store>(
        &mut self,
        ledger: LedgerId,
        layout: &Layout,
        ledgers: &mut S,
    ) -> Result<Version, ClientFault>
        ensures answer { result ≡ created_answer (S.means ledgers.old) ledger }
        ensures after { meant self.new ≡ when_ok (create_answer (S.means ledgers.old) ledger) (new_writer layout.now) (meant self.old) }
        ensures stored { S.means ledgers.new ≡ create_after (S.means ledgers.old) ledger layout.now }
    {
        let version = ledgers.create(ledger, layout)?;
        self.begin(layout, version);
        Ok(version)
    }

    // Writes a new ledger with this layout.
    fn begin(&mut self, layout: &Layout, version: Version)
        requires { version.0 ≡ 1 }
        ensures { meant self.new ≡ new_writer layout.now }
    {
        self.pending = ShortList::new();
        self.state = WriterState::Writing;
        self.layout = *layout;
        self.version = version;
        self.lac = Lac(0);
    }

    // How it stands with its ledger.
    pub fn state(&self) -> WriterState
        ensures { result ≡ self.now.state }
    {
        self.state
    }

    // The adds that are pending, in order.
    pub fn pending(&self) -> &[PendingAdd]
        ensures { result.now ≡ (meant self.now).pending }
    {
        self.pending.as_slice()
    }

    // The last add confirmed.
    pub fn lac(&self) -> Lac
        ensures { result ≡ self.now.lac }
    {
        self.lac
    }
}
