//! What files are kept in.

ghost use Rattle.std.specs.Prelude.{◌≡◌, ◌≢◌, ◌+◌, ◌<◌, ◌≤◌, ◌^◌, ℕ, Some, IfOk, IfSome, length, max, option_map};
ghost use Rattle.gd_vault.specs.Content.{File};
ghost use Rattle.gd_vault.specs.Events.Call.{Write, Truncate, Clone_into, Set_mode, Sync, Sync_names, Replace, Remove};
ghost use Rattle.gd_vault.specs.Views.{View, Asked, HasFile, IsAt, IsMoment, ReadAt};
ghost use Rattle.gd_vault.specs.Changes.{Changed, Cloned, Creates, ExistsWhere, HasName, Refused, Wrote};
ghost use Rattle.gd_vault.specs.Lawful.{IsLawfulWhere};

use gd_base::{Failed, Name};

/// Which file is meant. A name stands for one.
#[derive(Clone, Copy, Debug, PartialEq, Eq)]
pub struct FileId(pub u64);

/// For what a file may be opened.
#[derive(Clone, Copy, Debug, PartialEq, Eq)]
pub enum Mode {
    ReadOnly,
    WriteOnly,
    Both,
}

/// Why no file was made.
#[derive(Clone, Copy, Debug, PartialEq, Eq)]
pub enum CreateError {
    /// The name stands for a file.
    Exists,
    Failed,
}

/// Names that stand for files, and what a crash may leave of them.
///
/// A call that changes something, or that syncs, starts at a moment m, has the moment m + 1 inside it and ends at m + 2,
/// also where it fails. The other calls leave the moment.
pub trait Vault {
    /// What contracts see of it.
    ghost view_of: { Self → View };

    /// How many of its calls failed. A call that is answered leaves the count, and one that fails raises it by one, up
    /// to the last value of a u64.
    fn faults(&self) -> u64
        ensures { result ≡ (view_of self.now).faults };

    /// The present moment, counted from 0.
    fn moment(&self) -> u64
        ensures moment { IsMoment (view_of self.now) result }
        ensures lawful { IsLawfulWhere (view_of self.now) };

    /// The file for which a name stands.
    fn lookup(&mut self, name: &Name) -> Result<Option<FileId>, Failed>
        ensures asked { Asked result (view_of self.old) (view_of self.new) }
        ensures found { IfOk result (λ id. IsAt (view_of self.old) (λ c. c.names name.now ≡ option_map (λ f. f.0) id)) }
        ensures there { IfOk result (λ id. IfSome id (λ f. HasFile (view_of self.new) f.0)) };

    /// Makes an empty file with stamp 0 and a new id, unless the name stands for a file. After `Failed` the name is
    /// absent or stands for an empty file.
    fn create(&mut self, name: &Name, mode: Mode) -> Result<FileId, CreateError>
        ensures made { Creates name.now mode result (view_of self.old) (view_of self.new) }
        ensures exists { ExistsWhere name.now result (view_of self.old) }
        ensures there { IfOk result (λ f. HasFile (view_of self.new) f.0) };

    /// How many bytes a file has.
    fn len(&mut self, f: FileId) -> Result<u64, Failed>
        requires { HasFile (view_of self.old) f.0 }
        ensures asked { Asked result (view_of self.old) (view_of self.new) }
        ensures len { IfOk result (λ n. IsAt (view_of self.old) (λ c. (x : File) → c.files f.0 ≡ Some x → (n ≡ length x.bytes) × (n < 2 ^ 63))) };

    /// The mode of a file as it reads.
    fn mode(&mut self, f: FileId) -> Result<Mode, Failed>
        requires { HasFile (view_of self.old) f.0 }
        ensures asked { Asked result (view_of self.old) (view_of self.new) }
        ensures mode { IfOk result (λ mode. IsAt (view_of self.old) (λ c. (x : File) → c.files f.0 ≡ Some x → mode ≡ x.mode)) };

    /// The stamp that the last clone gave a file.
    fn stamp(&mut self, f: FileId) -> Result<u64, Failed>
        requires { HasFile (view_of self.old) f.0 }
        ensures asked { Asked result (view_of self.old) (view_of self.new) }
        ensures stamp { IfOk result (λ n. IsAt (view_of self.old) (λ c. (x : File) → c.files f.0 ≡ Some x → n ≡ x.stamp)) };

    /// Reads as much as the file has from a place on into the front of the buffer, and answers how many bytes these are.
    fn read_at(&mut self, f: FileId, at: u64, buf: &mut [u8]) -> Result<usize, Failed>
        requires { HasFile (view_of self.old) f.0 }
        ensures { ReadAt f.0 at buf.old buf.new result (view_of self.old) (view_of self.new) };

    /// Writes all the bytes at a place. A gap past the old end reads as zeros. No file gets longer than 2^63 - 1 bytes.
    /// After `Failed` the bytes of the range, and those past the old end, are not known.
    fn write_at(&mut self, f: FileId, at: u64, bytes: &[u8]) -> Result<(), Failed>
        requires file { HasFile (view_of self.old) f.0 }
        requires place { IsAt (view_of self.old) (λ c. (x : File) → c.files f.0 ≡ Some x → at ≤ max (length x.bytes) (2 ^ 47)) }
        ensures wrote { Wrote (Write f.0 at bytes.now) (length bytes.now) result (view_of self.old) (view_of self.new) }
        ensures too_long { 2 ^ 63 ≤ at + length bytes.now → Refused result (view_of self.old) (view_of self.new) };

    /// Makes a file empty. After `Failed` its bytes are not known.
    fn truncate(&mut self, f: FileId) -> Result<(), Failed>
        requires { HasFile (view_of self.old) f.0 }
        ensures { Changed (Truncate f.0) result (view_of self.old) (view_of self.new) };

    /// Gives a file the bytes of another, and a stamp. After `Failed` its bytes and its stamp are not known.
    fn clone_into(&mut self, dst: FileId, src: FileId, stamp: u64) -> Result<(), Failed>
        requires dst { HasFile (view_of self.old) dst.0 }
        requires src { HasFile (view_of self.old) src.0 }
        ensures { Cloned (Clone_into dst.0 src.0 stamp) result (view_of self.old) (view_of self.new) };

    /// Sets the mode. After `Failed` it is the old or the new one.
    fn set_mode(&mut self, f: FileId, mode: Mode) -> Result<(), Failed>
        requires { HasFile (view_of self.old) f.0 }
        ensures { Changed (Set_mode f.0 mode) result (view_of self.old) (view_of self.new) };

    /// Makes a file durable: its bytes, its mode and its stamp.
    fn sync(&mut self, f: FileId) -> Result<(), Failed>
        requires { HasFile (view_of self.old) f.0 }
        ensures { Changed (Sync f.0) result (view_of self.old) (view_of self.new) };

    /// Makes durable for what each name stands.
    fn sync_names(&mut self) -> Result<(), Failed>
        ensures { Changed Sync_names result (view_of self.old) (view_of self.new) };

    /// Makes one name stand for the file of another, which is then absent. After `Failed` the names are as before or as
    /// after.
    fn replace(&mut self, from: &Name, to: &Name) -> Result<(), Failed>
        requires { HasName (view_of self.old) from.now }
        ensures { Changed (Replace from.now to.now) result (view_of self.old) (view_of self.new) };

    /// Makes a name absent. After `Failed` it is as before or absent.
    fn remove(&mut self, name: &Name) -> Result<(), Failed>
        ensures { Changed (Remove name.now) result (view_of self.old) (view_of self.new) };
}
