//! The names of a script while it is checked, with a log of what has changed in the innermost open statement with blocks.

ghost use Rattle.std.specs.Prelude.{◌≡◌, OnOk, OnErr, IfErr};
ghost use Rattle.bm_check.specs.Tables.{names_of, AreListed, listed};
ghost use Rattle.bm_check.specs.declared.stop.Stop.TheVariants.{NoMemory};

use crate::meeting::Meeting;
use crate::name_state::NameState;
use crate::stop::Stop;
use crate::table::NameTable;
use std::alloc::Global;
use std::mem;

/// A name, and a state that it gets where a log is applied.
#[derive(Clone, Copy)]
pub struct Change<'a> {
    pub name: &'a [u8],
    pub state: NameState,
}

/// A table of names with an undo log: for each change, the state that the name had before it. The names whose state is
/// a non-owning reference are listed too. So an `if` and a `repeat` cost what changed in them, and not all names.
#[derive(Drop)]
pub struct NameLog<'a> {
    pub table: NameTable<'a>,
    pub changes: Vec<Change<'a>>,
    pub soft: Vec<&'a [u8]>,
    ghost soft_listed: { AreListed soft.items (names_of table) },
}

// Lists a name that gets a state, if that is a non-owning reference.
fn list_soft<'a>(soft: &mut Vec<&'a [u8]>, name: &'a [u8], state: NameState) -> Result<(), Stop>
    ensures ok { OnOk result (soft.new.items ≡ listed soft.old.items name.entry state) }
    ensures same { OnErr result (soft.new.items ≡ soft.old.items) }
    ensures err { IfErr result (λ stop. stop ≡ NoMemory) }
{
    if state.is_soft() {
        soft.push(name)?;
    }
    Ok(())
}

impl<'a> NameLog<'a> {
    ghost use Rattle.std.specs.Prelude.{IfOk, map, [], ◌++◌, false};
    ghost use Rattle.std.specs.List.{list_any};
    ghost use Rattle.bm_check.specs.NameStates.{is_soft};
    ghost use Rattle.bm_check.specs.Names as spec;
    ghost use Rattle.bm_check.specs.Changes.{names_in, Leads, Starts, KeepsStart, at_states, end_of, breaks_at, met_at, IsBack, IsMeeting};

    /// No names, and no changes.
    pub fn new(alloc: Global) -> NameLog<'a>
        ensures { names_in result ≡ spec.no_names }
    {
        NameLog {
            table: NameTable::new(alloc),
            changes: Vec::new(alloc),
            soft: Vec::new(alloc),
        }
    }

    /// Gives a name a state.
    pub fn put(&mut self, name: &'a [u8], state: NameState) -> Result<(), Stop>
        ensures ok { OnOk result (names_in self.new ≡ spec.put (names_in self.old) name.now state) }
        ensures kept { OnOk result (KeepsStart self.old self.new) }
        ensures soft { OnOk result
            (is_soft state ≡ false → self.new.soft.items ≡ self.old.soft.items) }
        ensures err { IfErr result (λ stop. stop ≡ NoMemory) }
    {
        let before = self.table.state(name);
        list_soft(&mut self.soft, name, state)?;
        self.changes.push(Change {
            name,
            state: before,
        })?;
        self.table.put(name, state)
    }

    // Ends a name's non-owning reference, if it is one.
    fn spend_soft(&mut self, name: &'a [u8]) -> Result<(), Stop>
        ensures ok { OnOk result
            (spec.soft_ended (names_in self.new) ≡ spec.soft_ended (names_in self.old)) }
        ensures spent { OnOk result (is_soft ((names_in self.new).state name.now) ≡ false) }
        ensures kept { OnOk result (KeepsStart self.old self.new) }
        ensures soft { OnOk result (self.new.soft.items ≡ self.old.soft.items) }
        ensures err { IfErr result (λ stop. stop ≡ NoMemory) }
    {
        if self.table.state(name).is_soft() {
            self.put(name, NameState::Spent)?;
        }
        Ok(())
    }

    /// Ends all non-owning references.
    pub fn end_soft(&mut self) -> Result<(), Stop>
        ensures ok { OnOk result (names_in self.new ≡ spec.soft_ended (names_in self.old)) }
        ensures kept { OnOk result (KeepsStart self.old self.new) }
        ensures err { IfErr result (λ stop. stop ≡ NoMemory) }
    {
        while let Some(name) = self.soft.last() {
            let name = *name;
            self.spend_soft(name)?;
            self.soft.pop();
        }
        Ok(())
    }

    /// Gives the names of a log its states, the last one first.
    pub fn apply(&mut self, changes: Vec<Change<'a>>) -> Result<(), Stop>
        ensures ok { OnOk result
            ((f : _) → Leads changes.entry.items (names_in self.old) f
            → names_in self.new ≡ at_states (names_in self.old) f) }
        ensures kept { OnOk result (KeepsStart self.old self.new) }
        ensures err { IfErr result (λ stop. stop ≡ NoMemory) }
    {
        let mut rest = changes;
        while let Some(change) = rest.pop() {
            self.put(change.name, change.state)?;
        }
        Ok(())
    }

    /// Begins a log, and gives the one so far.
    pub fn begin(&mut self, alloc: Global) -> Vec<Change<'a>>
        ensures names { names_in self.new ≡ names_in self.old }
        ensures empty { self.new.changes.items ≡ [] }
        ensures value { result.items ≡ self.old.changes.items }
    {
        mem::replace(&mut self.changes, Vec::new(alloc))
    }

    /// Goes back to the states at the log's start, with an empty log there, and gives the log that leads forth again.
    pub fn go_back(&mut self, alloc: Global) -> Result<Vec<Change<'a>>, Stop>
        ensures ok { IfOk result
            (λ forth. (f : _) → Starts self.old f → IsBack forth self.old self.new f) }
        ensures err { IfErr result (λ stop. stop ≡ NoMemory) }
    {
        let changes = self.begin(alloc);
        self.apply(changes)?;
        Ok(self.begin(alloc))
    }

    // Adds the states that the names of a log have now.
    fn add_ends(&self, changes: &[Change<'a>], ends: &mut Vec<Change<'a>>) -> Result<(), Stop>
        ensures ok { OnOk result
            (ends.new.items
            ≡ ends.old.items ++ map (end_of (names_in self.now).state) changes.now) }
        ensures err { IfErr result (λ stop. stop ≡ NoMemory) }
    {
        for change in changes {
            ends.push(Change {
                name: change.name,
                state: self.table.state(change.name),
            })?;
        }
        Ok(())
    }

    // Whether the states of some names now and in a list break the rule of a meeting.
    fn breaks(&self, ends: &[Change<'a>], meeting: Meeting) -> bool
        ensures { result ≡ list_any (breaks_at meeting (names_in self.now).state) ends.now }
    {
        for end in ends {
            if meeting.breaks(self.table.state(end.name), end.state) {
                return true;
            }
        }
        false
    }

    // What comes of the states of some names now and in a list.
    fn outcomes(
        &self,
        alloc: Global,
        ends: &[Change<'a>],
        meeting: Meeting,
    ) -> Result<Vec<Change<'a>>, Stop>
        ensures ok { IfOk result
            (λ outcomes. outcomes.items ≡ map (met_at meeting (names_in self.now).state) ends.now) }
        ensures err { IfErr result (λ stop. stop ≡ NoMemory) }
    {
        let mut outcomes = Vec::new(alloc);
        for end in ends {
            outcomes.push(Change {
                name: end.name,
                state: meeting.outcome(self.table.state(end.name), end.state),
            })?;
        }
        Ok(outcomes)
    }

    // The states that the names which changed in either part have now.
    fn ends(&self, alloc: Global, first: &[Change<'a>]) -> Result<Vec<Change<'a>>, Stop>
        ensures ok { IfOk result
            (λ ends. ends.items
            ≡ map (end_of (names_in self.now).state) (self.now.changes.items ++ first.now)) }
        ensures err { IfErr result (λ stop. stop ≡ NoMemory) }
    {
        let mut ends = Vec::new(alloc);
        self.add_ends(self.changes.as_slice(), &mut ends)?;
        self.add_ends(first, &mut ends)?;
        Ok(ends)
    }

    /// Two parts of a text meet: the one that the log has, and the first one, to whose end a log leads from the start of
    /// this one. Goes back to that start. Gives what comes of the names that changed, or none where a name breaks the
    /// meeting's rule.
    pub fn meet(
        &mut self,
        alloc: Global,
        first: Vec<Change<'a>>,
        meeting: Meeting,
    ) -> Result<Option<Vec<Change<'a>>>, Stop>
        ensures ok { IfOk result
            (λ met. (f g : _) → Starts self.old f
            → Leads first.entry.items (at_states (names_in self.old) f) g
            → IsMeeting meeting met (names_in self.old) f g self.new) }
        ensures err { IfErr result (λ stop. stop ≡ NoMemory) }
    {
        let ends = self.ends(alloc, first.as_slice())?;
        self.go_back(alloc)?;
        self.apply(first)?;
        if self.breaks(ends.as_slice(), meeting) {
            return Ok(None);
        }
        let outcomes = self.outcomes(alloc, ends.as_slice(), meeting)?;
        self.go_back(alloc)?;
        Ok(Some(outcomes))
    }
}
