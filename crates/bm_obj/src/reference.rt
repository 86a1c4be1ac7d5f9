//! References to objects.

ghost use Rattle.std.specs.Prelude.{◌≡◌};

use bm_journal::ObjId;
use std::marker::Model;

/// One reference to one life of a unit: the numbers of the unit and the life, the number of the object's type, and the
/// processor that made the object. In the kernel it is a pointer that a program owns.
///
/// Each stands for one of the object's count, so it can't be copied, and it has to be spent: by `release`, by an `exchange`
/// that puts it into a slot, or, after an out of memory, by `give_up`. `Objects` makes it.
pub struct Ref {
    unit: u16,
    life: u32,
    def: u8,
    maker: u8,
}

impl Model for Ref {
    ghost use Rattle.bm_obj.specs.Reference.{Reference};

    ghost Value = { Reference };

    ghost view = { λ r. record { unit = r.unit; life = r.life; def = r.def; maker = r.maker } };
}

impl Ref {
    /// A reference to this life of a unit, of this type, made by this processor.
    pub(crate) fn new(unit: u16, life: u32, def: u8, maker: u8) -> Ref
        ensures { result ≡ record { unit = unit; life = life; def = def; maker = maker } }
    {
        Ref {
            unit,
            life,
            def,
            maker,
        }
    }

    /// One reference more to the same object.
    pub(crate) fn again(&self) -> Ref
        ensures { result ≡ self.now }
    {
        Ref {
            unit: self.unit,
            life: self.life,
            def: self.def,
            maker: self.maker,
        }
    }

    /// The object: the unit and its life.
    pub fn id(&self) -> ObjId
        ensures { result ≡ record { unit = self.now.unit; life = self.now.life } }
    {
        ObjId {
            unit: self.unit,
            life: self.life,
        }
    }

    /// The number of the unit.
    pub fn unit(&self) -> u16
        ensures { result ≡ self.now.unit }
    {
        self.unit
    }

    /// Which of the unit's lives it is, from 1.
    pub fn life(&self) -> u32
        ensures { result ≡ self.now.life }
    {
        self.life
    }

    /// The number of the object's type.
    pub fn def(&self) -> u8
        ensures { result ≡ self.now.def }
    {
        self.def
    }

    /// The processor that made the object, the home of its unit.
    pub fn maker(&self) -> u8
        ensures { result ≡ self.now.maker }
    {
        self.maker
    }

    /// Ends a reference after an out of memory, without its object: the object keeps its count and never ends.
    pub fn give_up(self) {
        let Ref {
            unit: _,
            life: _,
            def: _,
            maker: _,
        } = self;
    }
}
