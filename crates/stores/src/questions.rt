// The questions of a store in their order, 30 to 33, once for every store: the first that gets a no decides. A store says
// what it keeps of the ledger, and whether it has room for a change.
ghost use Rattle.std.specs.Prelude.{◌≡◌, true, None, OnOk};
ghost use Rattle.ledgers.specs.Limits.{is_ledger};
ghost use Rattle.protocol.specs.Stores.{known};
ghost use Rattle.stores.specs.Questions.{get_question, create_question, put_question};

use ledgers::ids::{LedgerId, Version};
use messages::faults::StoreFault;
use messages::metadata::Metadata;

// The metadata of a ledger, which has to be there.
pub fn ask_get(ledger: LedgerId, kept: Option<Metadata>) -> Result<Metadata, StoreFault>
    ensures { result ≡ get_question kept ledger }
{
    if !ledger.is_in_range() {
        return Err(StoreFault::Range);
    }
    kept.ok_or(StoreFault::Existence)
}

// Whether a ledger can be created: it must not be there.
pub fn ask_create(
    ledger: LedgerId,
    kept: Option<Metadata>,
    has_room: bool,
) -> Result<(), StoreFault>
    ensures answer { result ≡ create_question kept has_room ledger }
    ensures ok { OnOk result ((is_ledger ledger.0 ≡ true) × (kept ≡ None) × (has_room ≡ true)) }
{
    if !ledger.is_in_range() {
        return Err(StoreFault::Range);
    }
    if kept.is_some() {
        return Err(StoreFault::Existence);
    }
    if !has_room {
        return Err(StoreFault::Full);
    }
    Ok(())
}

// Whether the metadata of a ledger can be put: it has to be there in the version that is expected.
pub fn ask_put(
    ledger: LedgerId,
    kept: Option<Metadata>,
    expected: Version,
    has_room: bool,
) -> Result<(), StoreFault>
    ensures answer { result ≡ put_question kept has_room ledger expected }
    ensures ok { OnOk result ((is_ledger ledger.0 ≡ true) × ((known kept).version ≡ expected) × (has_room ≡ true)) }
{
    let present = ask_get(ledger, kept)?;
    if present.version != expected {
        return Err(StoreFault::Version);
    }
    if !has_room {
        return Err(StoreFault::Full);
    }
    Ok(())
}
