//! The lists that a journal is made of. Each is made from a vector and gives it back without taking memory, and
//! contracts see it as a list.

ghost use Rattle.std.specs.Prelude.{◌≡◌};

use crate::log::Log;
use crate::past::Past;
use bm_class::{Class, Marks};
use bm_word::Name;
use std::marker::Model;

/// Names, in the order of their declarations.
#[derive(Drop)]
pub struct Names {
    items: Vec<Name>,
}

impl Model for Names {
    ghost use Rattle.std.specs.Prelude.{ℕ, List};

    ghost Value = { List (List ℕ) };

    ghost view = { λ n. n.items.items };
}

impl Names {
    /// The list with these items.
    pub fn new(items: Vec<Name>) -> Names
        ensures { result ≡ items.items }
    {
        Names { items }
    }

    /// The items.
    pub fn as_slice(&self) -> &[Name]
        ensures { result.now ≡ self.now }
    {
        self.items.as_slice()
    }

    /// The vector of the items.
    pub fn into_vec(self) -> Vec<Name>
        ensures { result.items ≡ self }
    {
        self.items
    }
}

/// The classes that a declared type uses, ascending, each with its watermarks.
#[derive(Drop)]
pub struct Opened {
    items: Vec<(Class, Marks)>,
}

impl Model for Opened {
    ghost use Rattle.std.specs.Prelude.{ℕ, List};
    ghost use Rattle.bm_class.specs.declared.watermarks.Marks.{Marks};

    ghost Value = { List (ℕ × Marks) };

    ghost view = { λ o. o.items.items };
}

impl Opened {
    /// The list with these items.
    pub fn new(items: Vec<(Class, Marks)>) -> Opened
        ensures { result ≡ items.items }
    {
        Opened { items }
    }

    /// The items.
    pub fn as_slice(&self) -> &[(Class, Marks)]
        ensures { result.now ≡ self.now }
    {
        self.items.as_slice()
    }

    /// The vector of the items.
    pub fn into_vec(self) -> Vec<(Class, Marks)>
        ensures { result.items ≡ self }
    {
        self.items
    }
}

/// The logs of all processors, ascending.
#[derive(Drop)]
pub struct Logs {
    items: Vec<Log>,
}

impl Model for Logs {
    ghost use Rattle.std.specs.Prelude.{ℕ, List};
    ghost use Rattle.bm_journal.specs.declared.entry.Entry.{Entry};

    ghost Value = { List (List (ℕ × Entry)) };

    ghost view = { λ l. l.items.items };
}

impl Logs {
    /// The list with these logs.
    pub fn new(items: Vec<Log>) -> Logs
        ensures { result ≡ items.items }
    {
        Logs { items }
    }

    /// The logs.
    pub fn as_slice(&self) -> &[Log]
        ensures { result.now ≡ self.now }
    {
        self.items.as_slice()
    }

    /// The vector of the logs.
    pub fn into_vec(self) -> Vec<Log>
        ensures { result.items ≡ self }
    {
        self.items
    }
}

/// The history of one list or tree: its name, and the calls on it in order.
#[derive(Drop)]
pub struct History {
    name: Name,
    items: Vec<Past>,
}

impl Model for History {
    ghost use Rattle.std.specs.Prelude.{ℕ, List};
    ghost use Rattle.bm_journal.specs.declared.past.Past.{Past};

    ghost Value = { List ℕ × List Past };

    ghost view = { λ h. (h.name, h.items.items) };
}

impl History {
    /// The history of a list or tree with this name.
    pub fn new(name: Name, items: Vec<Past>) -> History
        ensures { result ≡ (name, items.items) }
    {
        History { name, items }
    }

    /// The name of the list or tree.
    pub fn name(&self) -> &Name
        ensures { result.now ≡ self.now.0 }
    {
        &self.name
    }

    /// The calls, in order.
    pub fn as_slice(&self) -> &[Past]
        ensures { result.now ≡ self.now.1 }
    {
        self.items.as_slice()
    }

    /// The vector of the calls.
    pub fn into_vec(self) -> Vec<Past>
        ensures { result.items ≡ self.1 }
    {
        let History { name: _name, items } = self;
        items
    }
}

/// The histories of all lists and trees, in the order of their declarations.
#[derive(Drop)]
pub struct Histories {
    items: Vec<History>,
}

impl Model for Histories {
    ghost use Rattle.std.specs.Prelude.{ℕ, List};
    ghost use Rattle.bm_journal.specs.declared.past.Past.{Past};

    ghost Value = { List (List ℕ × List Past) };

    ghost view = { λ h. h.items.items };
}

impl Histories {
    /// The list with these histories.
    pub fn new(items: Vec<History>) -> Histories
        ensures { result ≡ items.items }
    {
        Histories { items }
    }

    /// The histories.
    pub fn as_slice(&self) -> &[History]
        ensures { result.now ≡ self.now }
    {
        self.items.as_slice()
    }

    /// The vector of the histories.
    pub fn into_vec(self) -> Vec<History>
        ensures { result.items ≡ self }
    {
        self.items
    }
}
