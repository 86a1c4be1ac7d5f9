//! A journal while its lines behind the heading are read.

ghost use Rattle.std.specs.Prelude.{◌≡◌, ℕ, List, [], IfOk, OnOk, length};

use arrayvec::ArrayVec;
use bm_class::{Class, Marks};
use bm_journal::{Entry, History, Level, Log, Past, Total};
use bm_law_text::Line;
use bm_word::{Name, NoMemory};
use std::alloc::Global;
use std::mem;

/// What the next line may belong to.
#[derive(Drop)]
pub enum Part {
    /// The classes, of which no log has begun behind them.
    Classes,
    /// A log, with its entries so far.
    Log(Log),
    /// A history, with its calls so far.
    Graph(Name, Vec<Past>),
    /// The totals.
    Totals,
}

/// What was read behind the first four lines. What is open isn't among the logs and histories yet.
#[derive(Drop)]
pub struct Body {
    pub classes: Vec<(Class, Marks)>,
    pub logs: Vec<Log>,
    pub graphs: Vec<History>,
    pub totals: ArrayVec<u64, 19>,
    pub part: Part,
}

impl Body {
    ghost use Rattle.bm_journal_reader.specs.declared.body.Part.TheVariants.{Classes};

    /// Nothing is read so far.
    pub fn new(alloc: Global) -> Body
        ensures classes { result.classes.items ≡ [] }
        ensures logs { result.logs.items ≡ [] }
        ensures graphs { result.graphs.items ≡ [] }
        ensures totals { result.totals.items ≡ [] }
        ensures part { result.part ≡ Classes }
    {
        Body {
            classes: Vec::new(alloc),
            logs: Vec::new(alloc),
            graphs: Vec::new(alloc),
            totals: ArrayVec::new(),
            part: Part::Classes,
        }
    }
}

impl Body {
    ghost use Rattle.bm_journal_reader.specs.declared.body.Part.TheVariants.{Totals};
    ghost use Rattle.bm_journal_reader.specs.Drafts.{IsInOrder, Takes, begun_logs, read_logs, read_graphs};
    ghost use Rattle.bm_law_text.specs.declared.line.Line.TheVariants as line_as;

    // What is open is among the logs and histories, and nothing is open.
    fn close(&mut self) -> Result<(), NoMemory>
        ensures logs { OnOk result (self.new.logs.items ≡ read_logs self.old) }
        ensures graphs { OnOk result (self.new.graphs.items ≡ read_graphs self.old) }
        ensures classes { self.new.classes ≡ self.old.classes }
        ensures totals { self.new.totals ≡ self.old.totals }
        ensures closed { self.new.part ≡ Totals }
    {
        let part = mem::replace(&mut self.part, Part::Totals);
        match part {
            Part::Log(log) => self.logs.push(log)?,
            Part::Graph(name, pasts) => self.graphs.push(History::new(name, pasts))?,
            Part::Classes | Part::Totals => {}
        }
        Ok(())
    }

    fn take_class(&mut self, class: Class, marks: Marks) -> Result<bool, NoMemory>
        requires { IsInOrder self.old }
        ensures { (maps : List (List ℕ))
            → IfOk result
            (λ taken. Takes taken maps self.old (line_as.Class class marks) self.new) }
    {
        match self.part {
            Part::Classes => {}
            _ => return Ok(false),
        }
        self.classes.push((class, marks))?;
        Ok(true)
    }

    fn take_entry(&mut self, level: Level, entry: Entry) -> Result<bool, NoMemory>
        requires { IsInOrder self.old }
        ensures { (maps : List (List ℕ))
            → IfOk result
            (λ taken. Takes taken maps self.old (line_as.Entry level entry) self.new) }
    {
        match &mut self.part {
            Part::Log(log) => {
                log.push(level, &entry)?;
                Ok(true)
            }
            _ => Ok(false),
        }
    }

    fn take_past(&mut self, position: u64, past: Past) -> Result<bool, NoMemory>
        requires { IsInOrder self.old }
        ensures { (maps : List (List ℕ))
            → IfOk result
            (λ taken. Takes taken maps self.old (line_as.Past position past) self.new) }
    {
        match &mut self.part {
            Part::Graph(_, pasts) => {
                if position != pasts.len() as u64 {
                    return Ok(false);
                }
                pasts.push(past)?;
                Ok(true)
            }
            _ => Ok(false),
        }
    }

    // How many logs have begun, where another may.
    fn begun_logs(&self) -> Option<u64>
        ensures { result ≡ begun_logs self.now.part (length self.now.logs.items) }
    {
        match &self.part {
            Part::Classes => Some(0),
            Part::Log(_) => Some(self.logs.len() as u64 + 1),
            _ => None,
        }
    }

    fn take_processor(&mut self, alloc: Global, processor: u64) -> Result<bool, NoMemory>
        requires { IsInOrder self.old }
        ensures { (maps : List (List ℕ))
            → IfOk result
            (λ taken. Takes taken maps self.old (line_as.Processor processor) self.new) }
    {
        let Some(begun) = self.begun_logs() else {
            return Ok(false);
        };
        if processor != begun {
            return Ok(false);
        }
        self.close()?;
        self.part = Part::Log(Log::new(alloc));
        Ok(true)
    }

    fn take_graph(&mut self, alloc: Global, name: Name) -> Result<bool, NoMemory>
        requires { IsInOrder self.old }
        ensures { (maps : List (List ℕ))
            → IfOk result (λ taken. Takes taken maps self.old (line_as.Graph name) self.new) }
    {
        match self.part {
            Part::Totals => return Ok(false),
            _ => {}
        }
        self.close()?;
        self.part = Part::Graph(name, Vec::new(alloc));
        Ok(true)
    }

    fn take_total(&mut self, total: Total, value: u64) -> Result<bool, NoMemory>
        requires { IsInOrder self.old }
        ensures { (maps : List (List ℕ))
            → IfOk result
            (λ taken. Takes taken maps self.old (line_as.Total total value) self.new) }
    {
        if total.place() != self.totals.len() {
            return Ok(false);
        }
        self.close()?;
        match self.totals.try_push(value) {
            Ok(()) => Ok(true),
            Err(_) => Ok(false),
        }
    }

    /// Takes a line, where it may come next, and answers whether it may. After a refusal nothing more is read.
    pub fn take(&mut self, alloc: Global, line: Line) -> Result<bool, NoMemory>
        requires { IsInOrder self.old }
        ensures { (maps : List (List ℕ))
            → IfOk result (λ taken. Takes taken maps self.old line self.new) }
    {
        match line {
            Line::Class(class, marks) => self.take_class(class, marks),
            Line::Processor(processor) => self.take_processor(alloc, processor),
            Line::Entry(level, entry) => self.take_entry(level, entry),
            Line::Graph(name) => self.take_graph(alloc, name),
            Line::Past(position, past) => self.take_past(position, past),
            Line::Total(total, value) => self.take_total(total, value),
            Line::Size(_, _) | Line::Types(_) | Line::Maps(_) | Line::Scripts(_) => Ok(false),
        }
    }
}
