//! Opening a database by its name.

ghost use Rattle.std.specs.Prelude.{◌≡◌, ◌≤◌, true, IfOk, IfErr};
ghost use Rattle.gd_readable.specs.Asks.{Counts};
ghost use Rattle.gd_store.specs.Opened.{is_of_opening};
ghost use Rattle.gd_vault.specs.Frame.{Within};
ghost use Rattle.gd_vault.specs.Views.{OnlyAsks};
ghost use Rattle.gd_session.specs.Calls.{AnyFile, AnyName};
ghost use Rattle.gd_session.specs.Frames.{MakesWithin, OpensOrMakesWithin, OpensWithin};
ghost use Rattle.gd_session.specs.Moves as moves;
ghost use Rattle.gd_session.specs.Openings.{IsOpening, IsOpeningCause, OpensByName, SpoilsByName};
ghost use Rattle.gd_session.specs.Opens.{Checks, Makes, Opens, Spoiled, Spoils, Unspoiled};
ghost use Rattle.gd_session.specs.State.{db_of};

use crate::settings::Settings;
use gd_base::DbError;
use gd_lang::Opening;
use gd_store::{Access, Store};
use gd_vault::Vault;
use std::alloc::Global;

// Opens a file that is there.
fn open_there<V: Vault>(
    alloc: Global,
    settings: &Settings,
    access: Access,
    vault: &mut V,
) -> Result<Store, DbError>
    requires least { 1 ≤ settings.now.cache }
    requires most { settings.now.cache ≤ 4096 }
    ensures opening { IsOpening (Checks settings.now access) Unspoiled settings.now.file result (V.view_of vault.old) (V.view_of vault.new) }
    ensures grows { Within AnyFile AnyName (V.view_of vault.old) (V.view_of vault.new) }
    ensures cause { IfErr result (λ e. IsOpeningCause e (V.view_of vault.old).faults (V.view_of vault.new).faults) }
    ensures answered { IfOk result (λ _. (V.view_of vault.new).faults ≡ (V.view_of vault.old).faults) }
    ensures counted { IfErr result (λ e. Counts e (V.view_of vault.old).faults (V.view_of vault.new).faults) }
    ensures asks { OnlyAsks (V.view_of vault.old) (V.view_of vault.new) }
    ensures first { IfOk result (λ o. moves.IsNew access settings.now.cache (db_of o)) }
    ensures errors { IfErr result (λ e. moves.or_failed (is_of_opening access) e ≡ true) }
{
    Store::open_file(alloc, vault, &settings.file, access, settings.cache)
}

// Makes or empties a file.
fn make<V: Vault>(alloc: Global, settings: &Settings, vault: &mut V) -> Result<Store, DbError>
    requires block { settings.now.block ≤ 1048576 }
    requires least { 1 ≤ settings.now.cache }
    requires most { settings.now.cache ≤ 4096 }
    ensures opening { IsOpening (Makes settings.now) (Spoiled settings.now) settings.now.file result (V.view_of vault.old) (V.view_of vault.new) }
    ensures grows { Within AnyFile AnyName (V.view_of vault.old) (V.view_of vault.new) }
    ensures cause { IfErr result (λ e. IsOpeningCause e (V.view_of vault.old).faults (V.view_of vault.new).faults) }
    ensures answered { IfOk result (λ _. (V.view_of vault.new).faults ≡ (V.view_of vault.old).faults) }
    ensures counted { IfErr result (λ e. Counts e (V.view_of vault.old).faults (V.view_of vault.new).faults) }
    ensures frame { MakesWithin settings.now.file (V.view_of vault.old) (V.view_of vault.new) }
    ensures first { IfOk result (λ o. moves.IsNew Access.Writer settings.now.cache (db_of o)) }
    ensures errors { IfErr result (λ e. moves.or_failed moves.is_of_making e ≡ true) }
{
    Store::create(
        alloc,
        vault,
        &settings.file,
        settings.block,
        settings.format,
        settings.cache,
    )
}

// Opens the file where it is there, and else makes it.
fn open_or_make<V: Vault>(
    alloc: Global,
    settings: &Settings,
    vault: &mut V,
) -> Result<Store, DbError>
    requires block { settings.now.block ≤ 1048576 }
    requires least { 1 ≤ settings.now.cache }
    requires most { settings.now.cache ≤ 4096 }
    ensures opening { IsOpening (OpensByName settings.now) (SpoilsByName settings.now) settings.now.file result (V.view_of vault.old) (V.view_of vault.new) }
    ensures grows { Within AnyFile AnyName (V.view_of vault.old) (V.view_of vault.new) }
    ensures cause { IfErr result (λ e. IsOpeningCause e (V.view_of vault.old).faults (V.view_of vault.new).faults) }
    ensures answered { IfOk result (λ _. (V.view_of vault.new).faults ≡ (V.view_of vault.old).faults) }
    ensures counted { IfErr result (λ e. Counts e (V.view_of vault.old).faults (V.view_of vault.new).faults) }
    ensures frame { OpensOrMakesWithin settings.now.file (V.view_of vault.old) (V.view_of vault.new) }
    ensures first { IfOk result (λ o. moves.IsNew Access.Writer settings.now.cache (db_of o)) }
    ensures errors { IfErr result (λ e. moves.or_failed (moves.is_of_way Opening.WrCreat) e ≡ true) }
{
    match vault.lookup(&settings.file) {
        Ok(Some(_)) => open_there(alloc, settings, Access::Writer, vault),
        Ok(None) => make(alloc, settings, vault),
        Err(_) => Err(DbError::VaultFault),
    }
}

/// Opens the database of the name last used, as the variable `open` says.
pub(crate) fn open_named<V: Vault>(
    alloc: Global,
    settings: &Settings,
    vault: &mut V,
) -> Result<Store, DbError>
    requires block { settings.now.block ≤ 1048576 }
    requires least { 1 ≤ settings.now.cache }
    requires most { settings.now.cache ≤ 4096 }
    ensures opening { IsOpening (Opens settings.now) (Spoils settings.now) settings.now.file result (V.view_of vault.old) (V.view_of vault.new) }
    ensures grows { Within AnyFile AnyName (V.view_of vault.old) (V.view_of vault.new) }
    ensures cause { IfErr result (λ e. IsOpeningCause e (V.view_of vault.old).faults (V.view_of vault.new).faults) }
    ensures answered { IfOk result (λ _. (V.view_of vault.new).faults ≡ (V.view_of vault.old).faults) }
    ensures counted { IfErr result (λ e. Counts e (V.view_of vault.old).faults (V.view_of vault.new).faults) }
    ensures frame { OpensWithin settings.now.opening settings.now.file (V.view_of vault.old) (V.view_of vault.new) }
    ensures first { IfOk result (λ o. moves.IsFirst settings.now (db_of o)) }
    ensures errors { IfErr result (λ e. moves.or_failed (moves.is_of_way settings.now.opening) e ≡ true) }
{
    match settings.opening {
        Opening::NewDb => make(alloc, settings, vault),
        Opening::WrCreat => open_or_make(alloc, settings, vault),
        Opening::Reader => open_there(alloc, settings, Access::Reader, vault),
    }
}
