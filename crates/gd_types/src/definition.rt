//! Definitions of keys and contents.

ghost use Rattle.std.specs.Prelude.{◌≡◌, ◌∷◌, ◌++◌, [], true, IfOk, OnOk, OnErr};
ghost use Rattle.gd_types.specs.Encoding.{value_count};
ghost use Rattle.gd_types.specs.Members.{accepts, has_float, is_made_from, reached};

use crate::Member;
use gd_base::OutOfMemory;
use std::alloc::Global;
use std::marker::Model;

/// A definition of keys or contents: a list of members, and whether it was written with braces. Each member was accepted
/// behind those before it.
#[derive(Debug, Drop)]
pub struct Definition {
    members: Vec<Member>,
    braces: bool,
    /// The place behind the last member.
    reached: u64,
    /// Whether the last member is a text.
    ended: bool,
}

impl Model for Definition {
    ghost use Rattle.gd_types.specs.Members.{Defined, IsSound};

    ghost Value = { Defined };

    ghost view = { λ d. record { members = d.members.items; braces = d.braces } };

    ghost invariant = { λ d. IsSound d.members.items d.reached d.ended };
}

impl Definition {
    /// A definition without members. Takes no memory.
    pub fn new(alloc: Global, braces: bool) -> Definition
        ensures { result ≡ record { members = []; braces = braces } }
    {
        Definition {
            members: Vec::new(alloc),
            braces,
            reached: 0,
            ended: false,
        }
    }

    /// Whether a member may come next: a row that is there, or a gap of at most 65,536 that doesn't go back, behind no
    /// text, not past the place 2^48, and without braces a value as the only member.
    pub fn accepts(&self, member: Member) -> bool
        ensures { result ≡ accepts self.now member }
    {
        member.fits_at(self.reached)
            && !self.ended
            && (self.braces || (self.members.is_empty() && member.has_value()))
    }

    /// Puts a member last. After want of memory the list stays.
    pub fn push(&mut self, member: Member) -> Result<(), OutOfMemory>
        requires { accepts self.old member ≡ true }
        ensures pushed { OnOk result (self.new ≡ record { members = self.old.members ++ member ∷ []; braces = self.old.braces }) }
        ensures stays { OnErr result (self.new ≡ self.old) }
    {
        match self.members.push(member) {
            Ok(()) => {
                self.reached = member.place_after(self.reached);
                self.ended = member.is_text();
                Ok(())
            }
            Err(_) => Err(OutOfMemory),
        }
    }

    /// An equal definition.
    pub fn copy(&self) -> Result<Definition, OutOfMemory>
        ensures { IfOk result (λ d. d ≡ self.now) }
    {
        match self.members.clone() {
            Ok(members) => Ok(Definition {
                members,
                braces: self.braces,
                reached: self.reached,
                ended: self.ended,
            }),
            Err(_) => Err(OutOfMemory),
        }
    }

    /// The members. Each fits at its place.
    pub(crate) fn members(&self) -> &[Member]
        ensures same { result.now ≡ self.now.members }
        ensures made { is_made_from 0 self.now.members ≡ true }
    {
        &self.members
    }

    /// The place behind the last member.
    pub(crate) fn reached(&self) -> u64
        ensures { result ≡ reached self.now.members }
    {
        self.reached
    }

    /// How many values there are.
    pub(crate) fn value_count(&self) -> usize
        ensures { result ≡ value_count self.now }
    {
        self.members
            .iter()
            .filter(|member| member.has_value())
            .count()
    }

    /// Whether there is a float or a double.
    pub fn has_float(&self) -> bool
        ensures { result ≡ has_float self.now }
    {
        self.members.iter().any(|member| member.is_float())
    }
}
