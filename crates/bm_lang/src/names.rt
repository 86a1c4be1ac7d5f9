//! Names that were declared, and what some words stand for.

ghost use Rattle.std.specs.Prelude.{◌≡◌};
ghost use Rattle.bm_lang.specs.Names.{fits, holds, runs_as};
ghost use Rattle.bm_lang.specs.Grammar.{node_of, map_kind_of, script_kind_of, is_later};

use crate::keyword::Keyword;
use crate::scenario::{MapKind, Node, ScriptKind};

/// Where a map is named: which maps may stand there.
#[derive(Clone, Copy, Debug)]
pub enum MapNeed {
    Slot,
    List,
    Tree,
    /// A list or a tree.
    Graph,
}

/// Whether a map of this kind may stand where one is needed.
pub fn fits(need: MapNeed, kind: MapKind) -> bool
    ensures { result ≡ fits need kind }
{
    match need {
        MapNeed::Slot => matches!(kind, MapKind::Slot),
        MapNeed::List => matches!(kind, MapKind::List),
        MapNeed::Tree => matches!(kind, MapKind::Tree),
        MapNeed::Graph => !matches!(kind, MapKind::Slot),
    }
}

/// Whether a map of this kind can hold objects with this node.
pub fn holds(kind: MapKind, node: Option<Node>) -> bool
    ensures { result ≡ holds kind node }
{
    match kind {
        MapKind::Slot => true,
        MapKind::List => matches!(node, Some(Node::List)),
        MapKind::Tree => matches!(node, Some(Node::Tree)),
    }
}

/// Whether a script of this kind is one that runs as a handler, or one that doesn't.
pub fn runs_as(handler: bool, kind: ScriptKind) -> bool
    ensures { result ≡ runs_as handler kind }
{
    match kind {
        ScriptKind::Handler => handler,
        _ => !handler,
    }
}

/// The node that a word stands for.
pub fn node_of(word: Keyword) -> Option<Node>
    ensures { result ≡ node_of word }
{
    match word {
        Keyword::List => Some(Node::List),
        Keyword::Tree => Some(Node::Tree),
        _ => None,
    }
}

/// The kind of map that a word stands for.
pub fn map_kind_of(word: Keyword) -> Option<MapKind>
    ensures { result ≡ map_kind_of word }
{
    match word {
        Keyword::Slot => Some(MapKind::Slot),
        Keyword::List => Some(MapKind::List),
        Keyword::Tree => Some(MapKind::Tree),
        _ => None,
    }
}

/// The kind of script that a word stands for.
pub fn script_kind_of(word: Keyword) -> Option<ScriptKind>
    ensures { result ≡ script_kind_of word }
{
    match word {
        Keyword::Plain => Some(ScriptKind::Plain),
        Keyword::Sleepable => Some(ScriptKind::Sleepable),
        Keyword::Handler => Some(ScriptKind::Handler),
        _ => None,
    }
}

/// Whether a word begins a statement that isn't built yet.
pub fn is_later(word: Keyword) -> bool
    ensures { result ≡ is_later word }
{
    matches!(word, Keyword::Peek | Keyword::Weak)
}
