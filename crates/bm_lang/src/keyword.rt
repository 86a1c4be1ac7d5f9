//! The reserved words.

ghost use Rattle.std.specs.Prelude.{◌≡◌, find};
ghost use Rattle.std.specs.Str.{bytes_eq};
ghost use Rattle.bm_lang.specs.Keywords.{keyword_of, keyword_eq, keyword_text};

/// A reserved word: no name may be spelled so. The words are this project's own.
#[derive(Clone, Copy, Debug, PartialEq, Eq)]
pub enum Keyword {
    Scenario,
    Processors,
    Pages,
    Deferred,
    On,
    Off,
    Type,
    Counted,
    List,
    Tree,
    Pad,
    Slot,
    Script,
    Plain,
    Sleepable,
    Handler,
    Run,
    At,
    Turns,
    New,
    Drop,
    Acquire,
    Get,
    Xchg,
    Null,
    If,
    Else,
    Repeat,
    Section,
    Lock,
    Unlock,
    Yield,
    PushFront,
    PushBack,
    PopFront,
    PopBack,
    Add,
    First,
    Remove,
    Peek,
    Weak,
}

/// The reserved word with these bytes. None exactly where they are no reserved word.
#[tactic(auto, unfolding(crate::specs::Keywords::keyword_of))]
pub fn keyword_of(word: &[u8]) -> Option<Keyword>
    ensures { result ≡ keyword_of word.now }
{
    first_spelled(&Keyword::ALL, word)
}

// The first of some words that is spelled so.
fn first_spelled(words: &[Keyword], spelled: &[u8]) -> Option<Keyword>
    ensures { result ≡ find (λ word. bytes_eq (keyword_text word) spelled.now) words.now }
{
    words.iter().copied().find(|word| word.text() == spelled)
}

impl Keyword {
    // Every reserved word, once.
    const ALL: [Keyword; 41] = [
        Keyword::Scenario,
        Keyword::Processors,
        Keyword::Pages,
        Keyword::Deferred,
        Keyword::On,
        Keyword::Off,
        Keyword::Type,
        Keyword::Counted,
        Keyword::List,
        Keyword::Tree,
        Keyword::Pad,
        Keyword::Slot,
        Keyword::Script,
        Keyword::Plain,
        Keyword::Sleepable,
        Keyword::Handler,
        Keyword::Run,
        Keyword::At,
        Keyword::Turns,
        Keyword::New,
        Keyword::Drop,
        Keyword::Acquire,
        Keyword::Get,
        Keyword::Xchg,
        Keyword::Null,
        Keyword::If,
        Keyword::Else,
        Keyword::Repeat,
        Keyword::Section,
        Keyword::Lock,
        Keyword::Unlock,
        Keyword::Yield,
        Keyword::PushFront,
        Keyword::PushBack,
        Keyword::PopFront,
        Keyword::PopBack,
        Keyword::Add,
        Keyword::First,
        Keyword::Remove,
        Keyword::Peek,
        Keyword::Weak,
    ];

    /// The bytes of the word, as a scenario spells it.
    pub fn text(self) -> &'static [u8]
        ensures { result.now ≡ keyword_text self }
    {
        match self {
            Keyword::Scenario => b"scenario",
            Keyword::Processors => b"processors",
            Keyword::Pages => b"pages",
            Keyword::Deferred => b"deferred",
            Keyword::On => b"on",
            Keyword::Off => b"off",
            Keyword::Type => b"type",
            Keyword::Counted => b"counted",
            Keyword::List => b"list",
            Keyword::Tree => b"tree",
            Keyword::Pad => b"pad",
            Keyword::Slot => b"slot",
            Keyword::Script => b"script",
            Keyword::Plain => b"plain",
            Keyword::Sleepable => b"sleepable",
            Keyword::Handler => b"handler",
            Keyword::Run => b"run",
            Keyword::At => b"at",
            Keyword::Turns => b"turns",
            Keyword::New => b"new",
            Keyword::Drop => b"drop",
            Keyword::Acquire => b"acquire",
            Keyword::Get => b"get",
            Keyword::Xchg => b"xchg",
            Keyword::Null => b"null",
            Keyword::If => b"if",
            Keyword::Else => b"else",
            Keyword::Repeat => b"repeat",
            Keyword::Section => b"section",
            Keyword::Lock => b"lock",
            Keyword::Unlock => b"unlock",
            Keyword::Yield => b"yield",
            Keyword::PushFront => b"push_front",
            Keyword::PushBack => b"push_back",
            Keyword::PopFront => b"pop_front",
            Keyword::PopBack => b"pop_back",
            Keyword::Add => b"add",
            Keyword::First => b"first",
            Keyword::Remove => b"remove",
            Keyword::Peek => b"peek",
            Keyword::Weak => b"weak",
        }
    }

    /// Whether this is the other word.
    pub fn is(self, other: Keyword) -> bool
        ensures { result ≡ keyword_eq self other }
    {
        self as u8 == other as u8
    }
}
