//! The names of a module, by number.
ghost use Rattle.std.specs.Prelude.{◌≡◌, ◌+◌, ◌^◌, ◌<◌, ◌↔◌, [], List, ℕ, length, map, slice_get, option_copied, IsSome, IsTrue, IfOk, OnOk, OnErr};
ghost use Rattle.std.specs.List.{IsDistinct};
ghost use Rattle.std.specs.Str.{bytes_eq};
ghost use Rattle.ir_tree.specs.NameTable.{number_of, with_name, text_of, Grows, IsKnown};

use indexmap::IndexSet;
use std::alloc::{AllocError, Global};
use std::hash::{BuildHasher, DefaultHasher, Hasher};
use std::marker::Model;

/// The number of a name in a [`Names`].
#[derive(Clone, Copy, Debug, PartialEq, Eq)]
pub struct NameId(pub u32);

/// Hashes names by SipHash-1-3, each after the same key.
#[derive(Clone, Copy)]
pub struct KeyedHash {
    start: DefaultHasher,
}

impl KeyedHash {
    /// Makes a hash with this key.
    fn new(key: &[u8]) -> KeyedHash {
        let mut start = DefaultHasher::new();
        start.write(key);
        KeyedHash { start }
    }
}

impl BuildHasher for KeyedHash {
    type Hasher = DefaultHasher;

    ghost build_hasher = { λ hash. hash.start };

    fn build_hasher(&self) -> DefaultHasher {
        self.start
    }
}

/// Distinct names, numbered from 0 in the order in which they were first given.
#[derive(Drop)]
pub struct Names {
    set: IndexSet<Vec<u8>, KeyedHash>,
}

impl Model for Names {
    ghost use Rattle.std.specs.Prelude.{List, ℕ, map};

    ghost Value = { List (List ℕ) };

    ghost view = { λ n. map (λ v. v.items) n.set.keys };
}

impl Names {
    /// Makes a table without names.
    pub fn new(alloc: Global) -> Names
        ensures { result ≡ [] }
    {
        Names::keyed(alloc, &[])
    }

    /// Makes a table without names that looks names up by a hash with this key.
    ///
    /// Whoever chooses the names can make a hash slow whose key is known. So where names come of a text, let the key be a digest
    /// of the whole text: names that collide under it can't be found, since they change it.
    pub fn keyed(alloc: Global, key: &[u8]) -> Names
        ensures { result ≡ [] }
    {
        Names {
            set: IndexSet::with_hasher(alloc, KeyedHash::new(key)),
        }
    }

    /// Returns how many names there are.
    pub fn len(&self) -> usize
        ensures len { result ≡ length self.now }
        ensures distinct { IsDistinct bytes_eq self.now }
    {
        self.set.len()
    }

    /// Tells whether there are no names.
    pub fn is_empty(&self) -> bool
        ensures { IsTrue result ↔ (self.now ≡ []) }
    {
        self.set.is_empty()
    }

    /// Returns the number of a name: its place in the order in which distinct names were first given.
    pub fn number(&mut self, name: &[u8]) -> Result<NameId, AllocError>
        requires { length self.old < 2 ^ 32 }
        ensures number { IfOk result (λ id. id.0 ≡ number_of self.old name.now) }
        ensures text { IfOk result (λ id. text_of self.new id.0 ≡ name.now) }
        ensures known { IfOk result (λ id. IsKnown self.new id.0) }
        ensures names { OnOk result (self.new ≡ with_name self.old name.now) }
        ensures grows { Grows self.old self.new }
        ensures err { OnErr result (self.new ≡ self.old) }
    {
        if let Some(index) = self.set.get_index_of(name) {
            return Ok(NameId(index as u32));
        }
        let owned = Vec::from_slice(*self.set.allocator(), name)?;
        let (index, _) = self.set.insert_full(owned)?;
        Ok(NameId(index as u32))
    }

    /// Returns the name of a number, or `None` where the number isn't below the count of names.
    pub fn text(&self, id: NameId) -> Option<&[u8]>
        ensures text { option_copied result ≡ slice_get self.now id.0 }
        ensures found { IsSome result ↔ (id.0 < length self.now) }
    {
        self.set
            .get_index(id.0 as usize)
            .map(|name| name.as_slice())
    }
}
