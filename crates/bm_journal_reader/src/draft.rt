//! A journal while its lines are read.

ghost use Rattle.std.specs.Prelude.{◌≡◌, true, false, IfOk, [], codes};
ghost use Rattle.bm_journal.specs.WellFormed.{all_differ};
ghost use Rattle.bm_journal_reader.specs.Owning.{Differ};
ghost use Rattle.bm_journal_reader.specs.Pieces.{texts};

use crate::body::Body;
use crate::lists::names;
use crate::owners::Owners;
use crate::parts::past_word;
use crate::told::{body_line_of, size_words};
use bm_word::{Name, NoMemory};
use std::alloc::Global;

/// How much of the heading is read: which of its first four lines comes next, or that they are all read.
#[derive(Clone, Copy)]
pub enum Head {
    Size,
    Types,
    Maps,
    Scripts,
    Behind,
}

/// What is read so far.
#[derive(Drop)]
pub struct Draft {
    pub head: Head,
    pub processors: u8,
    pub pages: u16,
    pub types: Vec<Name>,
    pub maps: Vec<Name>,
    pub owners: Owners,
    pub scripts: Vec<Name>,
    pub body: Body,
}

// The names, where they differ.
fn differ(alloc: Global, words: &[&[u8]]) -> Result<Option<Owners>, NoMemory>
    ensures { IfOk result (λ owners. Differ (texts words.now) owners) }
{
    let mut owners = Owners::new(alloc);
    for word in words {
        let differs = owners.put(alloc, word)?;
        if !differs {
            return Ok(None);
        }
    }
    Ok(Some(owners))
}

impl Draft {
    ghost use Rattle.bm_journal_reader.specs.declared.draft.Head.TheVariants as head;
    ghost use Rattle.bm_journal_reader.specs.Drafts.{IsSound, Reads, draft_lines, draft_stage, Begun};

    /// Nothing is read so far.
    pub fn new(alloc: Global) -> Draft
        ensures stage { draft_stage result ≡ Begun }
        ensures lines { draft_lines result ≡ [] }
        ensures sound { IsSound result }
    {
        Draft {
            head: Head::Size,
            processors: 0,
            pages: 0,
            types: Vec::new(alloc),
            maps: Vec::new(alloc),
            owners: Owners::new(alloc),
            scripts: Vec::new(alloc),
            body: Body::new(alloc),
        }
    }

    fn take_size(&mut self, words: &[&[u8]]) -> bool
        requires { self.old.head ≡ head.Size }
        ensures { Reads result self.old (texts words.now) self.new }
    {
        let Some(rest) = past_word(b"processors", words) else {
            return false;
        };
        let Some((processors, pages)) = size_words(rest) else {
            return false;
        };
        self.processors = processors;
        self.pages = pages;
        self.head = Head::Types;
        true
    }

    fn take_types(&mut self, alloc: Global, words: &[&[u8]]) -> Result<bool, NoMemory>
        requires { self.old.head ≡ head.Types }
        ensures { IfOk result (λ taken. Reads taken self.old (texts words.now) self.new) }
    {
        let Some(rest) = past_word(b"types", words) else {
            return Ok(false);
        };
        let Some(types) = names(alloc, rest)? else {
            return Ok(false);
        };
        self.types = types;
        self.head = Head::Maps;
        Ok(true)
    }

    fn take_maps(&mut self, alloc: Global, words: &[&[u8]]) -> Result<bool, NoMemory>
        requires { self.old.head ≡ head.Maps }
        ensures { IfOk result (λ taken. Reads taken self.old (texts words.now) self.new) }
    {
        let Some(rest) = past_word(b"maps", words) else {
            return Ok(false);
        };
        let Some(maps) = names(alloc, rest)? else {
            return Ok(false);
        };
        let Some(owners) = differ(alloc, rest)? else {
            return Ok(false);
        };
        self.maps = maps;
        self.owners = owners;
        self.head = Head::Scripts;
        Ok(true)
    }

    fn take_scripts(&mut self, alloc: Global, words: &[&[u8]]) -> Result<bool, NoMemory>
        requires at { self.old.head ≡ head.Scripts }
        requires sound { IsSound self.old }
        ensures { IfOk result (λ taken. Reads taken self.old (texts words.now) self.new) }
    {
        let Some(rest) = past_word(b"scripts", words) else {
            return Ok(false);
        };
        let Some(scripts) = names(alloc, rest)? else {
            return Ok(false);
        };
        self.scripts = scripts;
        self.body = Body::new(alloc);
        self.head = Head::Behind;
        Ok(true)
    }

    fn take_behind(&mut self, alloc: Global, words: &[&[u8]]) -> Result<bool, NoMemory>
        requires at { self.old.head ≡ head.Behind }
        requires sound { IsSound self.old }
        ensures { IfOk result (λ taken. Reads taken self.old (texts words.now) self.new) }
    {
        match body_line_of(alloc, &self.owners, words)? {
            Some(line) => {
                let taken = self.body.take(alloc, line)?;
                Ok(taken)
            }
            None => Ok(false),
        }
    }

    /// Takes the words of the next line, where they are one that may come there, and answers whether they are.
    pub fn take(&mut self, alloc: Global, words: &[&[u8]]) -> Result<bool, NoMemory>
        requires { IsSound self.old }
        ensures { IfOk result (λ taken. Reads taken self.old (texts words.now) self.new) }
    {
        match self.head {
            Head::Size => Ok(self.take_size(words)),
            Head::Types => self.take_types(alloc, words),
            Head::Maps => self.take_maps(alloc, words),
            Head::Scripts => self.take_scripts(alloc, words),
            Head::Behind => self.take_behind(alloc, words),
        }
    }
}
