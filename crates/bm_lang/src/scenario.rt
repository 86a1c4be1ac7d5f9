//! What a scenario's text says, in the order of its text. Lines are counted from 1.

use crate::items::Items;
use bm_word::Name;
use std::marker::Model;

/// One of the declared types, by its place in the order of their declarations, from 0.
#[derive(Clone, Copy, Debug, PartialEq, Eq)]
pub struct TypeId(pub usize);

/// One of the declared maps (slots, lists and trees together), by its place in the order of their declarations, from 0.
#[derive(Clone, Copy, Debug, PartialEq, Eq)]
pub struct MapId(pub usize);

/// One of the declared scripts, by its place in the order of their declarations, from 0.
#[derive(Clone, Copy, Debug, PartialEq, Eq)]
pub struct ScriptId(pub usize);

/// A scenario: what a machine has, what its objects are, and what its processors do. Line numbers apart, some text has
/// it as its reading. Contracts see its parts. Only `read_scenario` makes one. The language is this project's own.
#[derive(Debug, Drop)]
pub struct Scenario {
    parts: Parts,
}

impl Model for Scenario {
    ghost use Rattle.std.specs.Coded.{codes};
    ghost use Rattle.bm_lang.specs.contracts.scenario.Block as block;
    ghost use Rattle.bm_lang.specs.declared.scenario.Parts.{Parts};
    ghost use Rattle.bm_lang.specs.Scenarios.{IsFine};

    ghost Value = { Parts };

    ghost coded = { Prim.hlevel (codes, block.the_row.coded) };

    ghost view = { λ s. s.parts };

    ghost invariant = { λ s. IsFine s.parts };
}

impl Scenario {
    ghost use Rattle.std.specs.Prelude.{◌≡◌};
    ghost use Rattle.bm_lang.specs.Scenarios.{IsFine};

    // The scenario of what was read.
    pub(crate) fn new(parts: Parts) -> Scenario
        requires { IsFine parts }
        ensures { result ≡ parts }
    {
        Scenario { parts }
    }

    /// Its parts.
    pub fn parts(&self) -> &Parts
        ensures value { result.now ≡ self.now }
        // Line numbers apart, some text has them as its reading.
        ensures fine { IsFine self.now }
    {
        &self.parts
    }
}

/// The parts of a scenario, in the order of its text.
#[derive(Debug, Drop)]
pub struct Parts {
    /// How many processors there are, at least 1.
    pub processors: u32,
    /// How many pages of memory the stock begins with.
    pub pages: u32,
    /// Whether deferred work runs.
    pub deferred: bool,
    pub types: Items<TypeDeclaration>,
    pub maps: Items<MapDeclaration>,
    pub scripts: Items<Script>,
    pub runs: Items<RunLine>,
    pub ats: Items<AtLine>,
    /// The processors' turns, where the text has them.
    pub turns: Option<Items<u32>>,
}

/// A type of objects.
#[derive(Debug, Drop)]
pub struct TypeDeclaration {
    pub line: u32,
    pub name: Name,
    /// Whether objects of this type carry a reference count.
    pub counted: bool,
    /// The node by which a list or a tree holds objects of this type.
    pub node: Option<Node>,
    pub fields: Items<Name>,
    /// Further bytes of each object, a multiple of 8.
    pub pad: Option<u32>,
}

/// A node inside an object.
#[derive(Clone, Copy, Debug, PartialEq, Eq)]
pub enum Node {
    List,
    Tree,
}

/// A map that all processors share.
#[derive(Debug, Drop)]
pub struct MapDeclaration {
    pub line: u32,
    pub kind: MapKind,
    pub name: Name,
    /// The type of the objects that it holds.
    pub type_id: TypeId,
}

/// What a map is.
#[derive(Clone, Copy, Debug, PartialEq, Eq)]
pub enum MapKind {
    /// A place for one owning reference.
    Slot,
    /// A linked list with a lock.
    List,
    /// A tree with a lock, ordered by its objects' first field.
    Tree,
}

/// A script.
#[derive(Debug, Drop)]
pub struct Script {
    pub line: u32,
    pub name: Name,
    pub kind: ScriptKind,
    pub body: Block,
}

/// When a script runs, and what it may do.
#[derive(Clone, Copy, Debug, PartialEq, Eq)]
pub enum ScriptKind {
    /// Runs inside a read section of its own.
    Plain,
    /// May yield.
    Sleepable,
    /// Runs at a step of another script, as an interrupt would.
    Handler,
}

/// A line that runs a script on a processor.
#[derive(Clone, Copy, Debug)]
pub struct RunLine {
    pub line: u32,
    pub processor: u32,
    pub script: ScriptId,
}

/// A line that runs a handler script on a processor before one of its steps.
#[derive(Clone, Copy, Debug)]
pub struct AtLine {
    pub line: u32,
    pub processor: u32,
    pub step: u32,
    /// The level that the handler runs at, 1 to 3.
    pub level: u32,
    pub script: ScriptId,
}

/// Statements between braces, and the line of the closing one.
#[derive(Debug, Drop)]
#[cycle(tree)]
pub struct Block {
    pub statements: Vec<Statement>,
    pub end_line: u32,
}

/// A statement, and the line of its first word.
#[derive(Debug, Drop)]
#[cycle(tree)]
pub struct Statement {
    pub line: u32,
    pub action: Action,
}

/// What a statement does. Names that aren't declared are a script's own.
#[derive(Debug, Drop)]
#[cycle(tree)]
pub enum Action {
    /// `new x T v..`: asks for an object of a type, with these values of its fields.
    New {
        name: Name,
        type_id: TypeId,
        values: Items<u32>,
    },
    /// `drop x`: gives up an owning reference.
    Drop {
        name: Name,
    },
    /// `acquire y x`: a second owning reference to a counted object.
    Acquire {
        name: Name,
        of: Name,
    },
    /// `get x f`: reads a field.
    Get {
        name: Name,
        field: Name,
    },
    /// `xchg y s x` and `xchg y s null`: puts an owning reference or null into a slot and takes what was there.
    Exchange {
        name: Name,
        slot: MapId,
        given: Option<Name>,
    },
    /// `if x { .. } else { .. }`: the first block where the name isn't null, else the other.
    If {
        name: Name,
        body: Block,
        otherwise: Option<Block>,
    },
    /// `repeat n { .. }`: the block so many times.
    Repeat {
        count: u32,
        body: Block,
    },
    /// `section { .. }`: the block inside a read section.
    Section {
        body: Block,
    },
    /// `lock g`: takes the lock of a list or a tree.
    Lock {
        graph: MapId,
    },
    /// `unlock`: gives back the lock that is held.
    Unlock,
    /// `yield`: lets other processors go on.
    Yield,
    /// `push_front q x`: gives an owning reference to the front of a list.
    PushFront {
        list: MapId,
        name: Name,
    },
    /// `push_back q x`: gives an owning reference to the back of a list.
    PushBack {
        list: MapId,
        name: Name,
    },
    /// `pop_front x q`: takes the object at the front of a list.
    PopFront {
        name: Name,
        list: MapId,
    },
    /// `pop_back x q`: takes the object at the back of a list.
    PopBack {
        name: Name,
        list: MapId,
    },
    /// `add t x`: gives an owning reference to a tree.
    Add {
        tree: MapId,
        name: Name,
    },
    /// `first x t`: a non-owning reference to the least object of a tree.
    First {
        name: Name,
        tree: MapId,
    },
    /// `remove y t x`: takes an object out of a tree, by a non-owning reference to it.
    Remove {
        name: Name,
        tree: MapId,
        node: Name,
    },
}
