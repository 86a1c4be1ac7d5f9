ghost use Rattle.std.specs.Prelude.{◌≡◌, ◌+◌, ◌<◌, ◌^◌, None, Some};

use bm_class::Class;
use std::marker::Model;

/// How the delayed free that ended a unit's last life passed its plain grace period: the stamp
/// that was taken for it, and the number of the plain domain that was then seen, which is at least
/// the stamp. This project's own record.
#[derive(Clone, Copy, Debug, PartialEq, Eq)]
pub struct Seal {
    /// The number that the plain domain had to reach.
    pub stamp: u32,
    /// The number that was seen there.
    pub seen: u32,
}

/// A unit of memory that is out of the stock, and the right to use it. It can't be copied, and it
/// has to be spent: it goes back by `Pool::put_back`, or ends by `give_up`.
///
/// A `Pool` makes it. Contracts see its number, class, home, lives so far and seal.
pub struct Unit {
    number: u16,
    class: Class,
    home: u8,
    life: u32,
    seal: Option<Seal>,
}

impl Model for Unit {
    ghost use Rattle.bm_page.specs.UnitState.{UnitState};

    ghost Value = { UnitState };

    ghost view = { λ unit. record {
      number = unit.number;
      class = unit.class;
      home = unit.home;
      life = unit.life;
      seal = unit.seal;
    } };
}

impl Unit {
    ghost use Rattle.std.specs.Prelude.{◌≡◌, ◌+◌, ◌<◌, ◌^◌, None, Some, false};
    ghost use Rattle.bm_page.specs.UnitState.{stocked_of};

    /// A unit that leaves the stock with what the stock knew of it. Its home is 0 until a
    /// processor gives it.
    pub(crate) fn leave_stock(number: u16, class: Class, stocked: Stocked) -> Unit
        ensures number { result.number ≡ number }
        ensures class { result.class ≡ class }
        ensures home { result.home ≡ 0 }
        ensures life { result.life ≡ stocked.life }
        ensures seal { result.seal ≡ stocked.seal }
    {
        Unit {
            number,
            class,
            home: 0,
            life: stocked.life,
            seal: stocked.seal,
        }
    }

    /// Ends the unit that goes back, and says what the stock keeps of it.
    pub(crate) fn enter_stock(self) -> Stocked
        ensures { result ≡ stocked_of self }
    {
        let Unit {
            number: _,
            class: _,
            home: _,
            life,
            seal,
        } = self;
        Stocked {
            out: false,
            life,
            seal,
        }
    }

    /// The unit's number: 256 times its page, and its position on the page. This project's own
    /// numbering.
    pub fn number(&self) -> u16
        ensures { result ≡ self.now.number }
    {
        self.number
    }

    /// The class of the unit, which is that of its page while the unit is out.
    pub fn class(&self) -> Class
        ensures { result ≡ self.now.class }
    {
        self.class
    }

    /// The processor that gave the unit last; 0 where none did since it left the stock. From the
    /// home that a unit of kernel/bpf/memalloc.c keeps beside its object.
    pub fn home(&self) -> u8
        ensures { result ≡ self.now.home }
    {
        self.home
    }

    /// How many lives the unit has begun, in the stock's whole time.
    pub fn life(&self) -> u32
        ensures { result ≡ self.now.life }
    {
        self.life
    }

    /// The seal of the unit's last life; `None` exactly where that life didn't end by a delayed
    /// free whose plain grace period was seen to have passed.
    pub fn seal(&self) -> Option<Seal>
        ensures { result ≡ self.now.seal }
    {
        self.seal
    }

    /// Makes a processor the unit's home.
    pub fn set_home(&mut self, home: u8)
        ensures { self.new ≡ record self.old { home = home } }
    {
        self.home = home;
    }

    /// Begins the unit's next life, which has no seal.
    pub fn begin_life(&mut self)
        requires { self.old.life + 1 < 2 ^ 32 }
        ensures { self.new ≡ record self.old { life = self.old.life + 1; seal = None } }
    {
        self.life += 1;
        self.seal = None;
    }

    /// Seals the unit's last life.
    pub fn set_seal(&mut self, seal: Seal)
        ensures { self.new ≡ record self.old { seal = Some seal } }
    {
        self.seal = Some(seal);
    }

    /// Ends a unit that isn't back in the stock, after a want of memory. The unit is lost, and the
    /// stock never has it again.
    pub fn give_up(self) {
        let Unit {
            number: _,
            class: _,
            home: _,
            life: _,
            seal: _,
        } = self;
    }
}

/// What the stock knows of a unit: whether it is out, and its lives so far and its seal as they
/// were when it was last in stock.
#[derive(Clone, Copy, Debug, PartialEq, Eq)]
pub struct Stocked {
    pub out: bool,
    pub life: u32,
    pub seal: Option<Seal>,
}

impl Stocked {
    /// A unit that never lived.
    pub(crate) const NEW: Stocked = Stocked {
        out: false,
        life: 0,
        seal: None,
    };
}
