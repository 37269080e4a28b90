//! Tags: how a value is kept.
ghost use Rattle.std.specs.Prelude.{◌≡◌, ◌↔◌, IsTrue};

/// What a node or leaf of a tree may be tagged with.
pub trait Tag: Drop {
    /// Tells whether two tags are equal.
    fn same(&self, other: &Self) -> bool
        ensures { IsTrue result ↔ (self.now ≡ other.now) };
}

/// Gives new tags for old ones.
pub trait Retag<A: Tag, B: Tag> {
    ghost leads: { Self → A → B → Self → Type 0 };

    /// Returns the new tag of one node or leaf.
    fn tag(&mut self, old: &A) -> B
        ensures { leads self.old old.now result self.new };
}

/// How a value is kept safe.
#[derive(Clone, Copy, Debug, PartialEq, Eq)]
pub enum Scheme {
    /// Three times, as the value itself.
    Tri,
    /// Once, as a multiple that an arithmetic code checks.
    An,
}

/// Which version of a value is meant.
#[derive(Clone, Copy, Debug, PartialEq, Eq)]
pub enum Ver {
    /// The first of three.
    One,
    /// The second of three.
    Two,
    /// The third of three.
    Three,
    /// The only one, as the value itself.
    Plain,
    /// The only one, as a multiple that an arithmetic code checks.
    Code,
}

/// Where a version of a value stands.
#[derive(Clone, Copy, Debug, PartialEq, Eq)]
pub enum Place {
    /// In the register with this number, from 0 to 31.
    Reg(u8),
    /// In the slot of the frame with this number, from 0.
    Slot(u32),
}

impl Tag for () {
    fn same(&self, _other: &()) -> bool {
        true
    }
}

impl Tag for Scheme {
    fn same(&self, other: &Scheme) -> bool {
        *self == *other
    }
}

impl Tag for Ver {
    fn same(&self, other: &Ver) -> bool {
        *self == *other
    }
}

impl Tag for Place {
    fn same(&self, other: &Place) -> bool {
        *self == *other
    }
}
