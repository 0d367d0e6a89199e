//! The pairs of a dump, stored as they come.

ghost use Rattle.std.specs.Prelude.{◌≡◌, ◌||◌, ℕ, [], IfErr, true, false};
ghost use Rattle.gd_base.specs.declared.errors.DbError.TheVariants as errors;
ghost use Rattle.gd_load.specs.Items.{EndsWith, MayCome, ReadOn, StopsFor};
ghost use Rattle.gd_loading.specs.Loads.{CausedBy, IsLoading, LoadsOn, LoadsRead, NoneAfter, NoneLeft, TakesItem, given_behind, is_broken_by, item_cause};
ghost use Rattle.gd_store.specs.Changed.{Keeps};
ghost use Rattle.gd_store.specs.Opened.{Fits};
ghost use Rattle.gd_vault.specs.Streams.{OnlyWrites};
ghost use Rattle.gd_vault.specs.Views.{HasFile};

use gd_base::{DbError, Source};
use gd_dump_reading::{Item, Machine};
use gd_load::{Incoming, Stop};
use gd_store::{How, Store};
use gd_vault::Vault;

/// Why a load ended before the end of the dump.
#[derive(Clone, Copy, Debug, PartialEq, Eq)]
pub enum Ending {
    /// The dump was refused, or its source ended it.
    Dump(Stop),
    /// A pair was refused.
    Db(DbError),
}

// Stores the pair of an item. Are more to come?
fn take_item<V: Vault>(
    store: &mut Store,
    vault: &mut V,
    item: Item,
    how: How,
) -> Result<bool, DbError>
    requires { IsLoading (V.view_of vault.old) store.old }
    ensures there { HasFile (V.view_of vault.new) store.new.file }
    ensures fits { Fits (V.view_of vault.new) store.new }
    ensures keeps { Keeps store.old store.new }
    ensures breaks { store.new.broken ≡ is_broken_by (item_cause result) }
    ensures frame { OnlyWrites store.old.file (V.view_of vault.old) (V.view_of vault.new) }
    ensures takes { TakesItem how item store.old.file (V.view_of vault.old) (V.view_of vault.new) result }
    ensures cause { (n m : ℕ) → CausedBy (item_cause result) n n m (V.view_of vault.old).faults (V.view_of vault.new).faults }
{
    match item {
        Item::Head(_) => Ok(true),
        Item::Pair(key, value) => {
            match store.store(vault, key.as_slice(), value.as_slice(), how) {
                Ok(()) => Ok(true),
                Err(e) => Err(e),
            }
        }
        Item::End => Ok(false),
    }
}

// Stores the pairs of what was read. Is the dump at its end?
fn take_read<M: Machine, V: Vault>(
    incoming: &mut Incoming<M>,
    store: &mut Store,
    vault: &mut V,
    how: How,
) -> Result<bool, Ending>
    requires { IsLoading (V.view_of vault.old) store.old }
    ensures there { HasFile (V.view_of vault.new) store.new.file }
    ensures fits { Fits (V.view_of vault.new) store.new }
    ensures keeps { Keeps store.old store.new }
    ensures breaks { store.new.broken ≡ is_broken_by result }
    ensures frame { OnlyWrites store.old.file (V.view_of vault.old) (V.view_of vault.new) }
    ensures loads { LoadsRead how store.old.file (V.view_of vault.old) (V.view_of vault.new) (MayCome incoming.old.ended) (given_behind [] incoming.old) (given_behind [] incoming.new) result }
    ensures none { NoneLeft incoming.new result }
    ensures cause { (n m : ℕ) → CausedBy result n n m (V.view_of vault.old).faults (V.view_of vault.new).faults }
    ensures rest { (incoming.new.read ≡ incoming.old.read) × (incoming.new.ended ≡ incoming.old.ended) }
{
    'items: loop {
        match incoming.next_read() {
            Ok(Some(item)) => match take_item(store, vault, item, how) {
                Ok(true) => {}
                Ok(false) => return Ok(true),
                Err(e) => return Err(Ending::Db(e)),
            },
            Ok(None) => return Ok(incoming.is_ended()),
            Err(stop) => return Err(Ending::Dump(stop)),
        }
    }
}

/// Stores the pairs that a dump has behind its head, each as it comes, in their order, up to the first that is refused or
/// the refusal that ends the dump. With `Insert` a pair whose key is there is refused.
///
/// The database has to be open to write. The pairs before a stop stay stored. Nothing is made durable.
pub fn store_pairs<M: Machine, S: Source, V: Vault>(
    incoming: &mut Incoming<M>,
    input: &mut S,
    store: &mut Store,
    vault: &mut V,
    how: How,
) -> Result<(), Ending>
    requires loading { IsLoading (V.view_of vault.old) store.old }
    requires ended { EndsWith incoming.old.ended (S.left input.old) }
    ensures there { HasFile (V.view_of vault.new) store.new.file }
    ensures fits { Fits (V.view_of vault.new) store.new }
    ensures keeps { Keeps store.old store.new }
    ensures breaks { store.new.broken ≡ is_broken_by result }
    ensures frame { OnlyWrites store.old.file (V.view_of vault.old) (V.view_of vault.new) }
    ensures loads { ReadOn (S.left input.old) (S.left input.new) (LoadsOn how store.old.file (V.view_of vault.old) (V.view_of vault.new) incoming.old incoming.new result) }
    ensures none { NoneAfter incoming.new result }
    ensures ended { EndsWith incoming.new.ended (S.left input.new) }
    ensures cause { CausedBy result (S.fault_count input.old) (S.fault_count input.new) incoming.new.read (V.view_of vault.old).faults (V.view_of vault.new).faults }
{
    'pages: loop {
        match take_read(incoming, store, vault, how) {
            Ok(true) => return Ok(()),
            Ok(false) => {}
            Err(ending) => return Err(ending),
        }
        if let Err(stop) = incoming.turn_page(input) {
            return Err(Ending::Dump(stop));
        }
    }
}
