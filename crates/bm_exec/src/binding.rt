//! The names that scripts bind, put in a table before the first of them runs.

ghost use Rattle.std.specs.Prelude.{◌≡◌, ℕ, List, true, OnOk, option_copied};
ghost use Rattle.bm_exec.specs.Bindings.{bound_by, passes, binds_by, binds_among};
ghost use Rattle.bm_exec.specs.Seen.{names_of, has_name};

use crate::names::NameTable;
use bm_lang::{Action, Block, Script};
use bm_word::{Name, NoMemory};
use std::alloc::Global;

// The name that a statement binds by itself.
fn bound_name(action: &Action) -> Option<&Name>
    ensures { option_copied result ≡ bound_by action.now }
{
    match action {
        Action::New { name, .. }
        | Action::Acquire { name, .. }
        | Action::Exchange { name, .. }
        | Action::PopFront { name, .. }
        | Action::PopBack { name, .. }
        | Action::First { name, .. }
        | Action::Remove { name, .. } => Some(name),
        _ => None,
    }
}

// Puts the name that a statement binds by itself in the table.
fn add_bound(table: &mut NameTable, action: &Action) -> Result<(), NoMemory>
    ensures bound { OnOk result (passes (has_name table.new) (bound_by action.now) ≡ true) }
    ensures names { OnOk result
        ((x : List ℕ) → has_name table.old x ≡ true → has_name table.new x ≡ true) }
    ensures held { OnOk result (names_of table.new ≡ names_of table.old) }
{
    match bound_name(action) {
        Some(name) => table.add(name.as_bytes()),
        None => Ok(()),
    }
}

// Puts the names that a block's statements bind in the table.
#[cycle(binding)]
fn add_block(table: &mut NameTable, block: &Block) -> Result<(), NoMemory>
    ensures bound { OnOk result (binds_among (has_name table.new) block.now ≡ true) }
    ensures names { OnOk result
        ((x : List ℕ) → has_name table.old x ≡ true → has_name table.new x ≡ true) }
    ensures held { OnOk result (names_of table.new ≡ names_of table.old) }
{
    for statement in &block.statements {
        add_action(table, &statement.action)?;
    }
    Ok(())
}

#[cycle(binding)]
fn add_action(table: &mut NameTable, action: &Action) -> Result<(), NoMemory>
    ensures bound { OnOk result (binds_by (has_name table.new) action.now ≡ true) }
    ensures names { OnOk result
        ((x : List ℕ) → has_name table.old x ≡ true → has_name table.new x ≡ true) }
    ensures held { OnOk result (names_of table.new ≡ names_of table.old) }
{
    match action {
        Action::If {
            body,
            otherwise,
            ..
        } => {
            add_block(table, body)?;
            match otherwise {
                Some(block) => add_block(table, block),
                None => Ok(()),
            }
        }
        Action::Repeat { body, .. } => add_block(table, body),
        Action::Section { body } => add_block(table, body),
        _ => add_bound(table, action),
    }
}

impl NameTable {
    ghost use Rattle.std.specs.Prelude.{IfOk};
    ghost use Rattle.std.specs.List.{list_all};
    ghost use Rattle.bm_lang.specs.declared.scenario.Script.{Script};
    ghost use Rattle.bm_law_scenario.specs.Held.{no_names};

    /// A table for a script: each name that it binds is there, and holds nothing. Out of memory is the only refusal.
    pub fn for_script(alloc: Global, script: &Script) -> Result<NameTable, NoMemory>
        ensures bound { IfOk result (λ table. binds_among (has_name table) script.now.body ≡ true) }
        ensures none { IfOk result (λ table. names_of table ≡ no_names) }
    {
        let mut table = NameTable::new(alloc);
        add_block(&mut table, &script.body)?;
        Ok(table)
    }

    /// A table for some scripts: each name that one of them binds is there, and holds nothing. Want of memory is the only
    /// refusal.
    pub fn for_scripts(alloc: Global, scripts: &[Script]) -> Result<NameTable, NoMemory>
        ensures bound { IfOk result
            (λ table. list_all (λ (s : Script). binds_among (has_name table) s.body) scripts.now
            ≡ true) }
        ensures none { IfOk result (λ table. names_of table ≡ no_names) }
    {
        let mut table = NameTable::new(alloc);
        for script in scripts {
            add_block(&mut table, &script.body)?;
        }
        Ok(table)
    }
}
