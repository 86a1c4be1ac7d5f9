//! Single statements: what each needs, spends and binds.

ghost use Rattle.std.specs.Prelude.{◌≡◌, ◌&&◌, OnOk, IfErr, Option, Some, None, if◌then◌else◌};
ghost use Rattle.std.specs.Option.{option_or, option_map};
ghost use Rattle.bm_check.specs.NameStates.{owns, type_in};
ghost use Rattle.bm_check.specs.Tables.{names_of};
ghost use Rattle.bm_check.specs.Changes.{names_in, KeepsStart};
ghost use Rattle.bm_check.specs.Answers.{IsBinding, IsBound, IsJudged};
ghost use Rattle.bm_check.specs.Blocks.{after_statement};
ghost use Rattle.bm_check.specs.declared.name_state.NameState.TheVariants.{Maybe, MaybeSoft, Owned};
ghost use Rattle.bm_check.specs.Statements as spec;
ghost use Rattle.bm_lang.specs.declared.scenario.Action.{Exchange};
ghost use Rattle.bm_check.specs.declared.stop.Stop.TheVariants.{NoMemory};

use crate::name_log::NameLog;
use crate::name_state::{HeldLock, NameState};
use crate::rule::Rule;
use crate::setting::{
    Setting, fits_any, fits_counted, fits_field, fits_map, is_counted, is_handler, leads_into,
    type_of_map,
};
use crate::stop::Stop;
use crate::table::NameTable;
use bm_lang::{Action, MapId, TypeId};
use bm_word::Name;

// A need: nothing where it is met, else the rule that it is.
fn need(met: bool, rule: Rule) -> Option<Rule>
    ensures { result ≡ spec.need met rule }
{
    if met { None } else { Some(rule) }
}

fn no_handler(setting: &Setting) -> Option<Rule>
    ensures { result ≡ spec.no_handler (spec.setting_of setting.now.scenario.now setting.now.kind) }
{
    need(!is_handler(setting), Rule::NotInHandler)
}

fn is_free_of_locks(lock: HeldLock) -> bool
    ensures { result ≡ spec.is_free_of_locks lock }
{
    match lock {
        HeldLock::Nothing => true,
        _ => false,
    }
}

fn no_second_lock(lock: HeldLock) -> Option<Rule>
    ensures { result ≡ spec.no_second_lock lock }
{
    need(is_free_of_locks(lock), Rule::OneLock)
}

fn outside_locks(lock: HeldLock) -> Option<Rule>
    ensures { result ≡ spec.outside_locks lock }
{
    need(is_free_of_locks(lock), Rule::NotUnderLock)
}

fn under_lock_of(graph: MapId, lock: HeldLock) -> Option<Rule>
    ensures { result ≡ spec.under_lock_of graph lock }
{
    let held = match lock {
        HeldLock::Nothing => false,
        HeldLock::Here(other) => graph.0 == other.0,
        HeldLock::Around(other) => graph.0 == other.0,
    };
    need(held, Rule::UnderItsLock)
}

// An unlock gives back a lock that was taken in its own block.
fn unlocks(lock: HeldLock) -> Option<Rule>
    ensures { result ≡ option_or (spec.some_lock lock) (spec.lock_from_here lock) }
{
    match lock {
        HeldLock::Nothing => Some(Rule::UnderItsLock),
        HeldLock::Here(_) => None,
        HeldLock::Around(_) => Some(Rule::LockInItsBlock),
    }
}

// A name that is used, where `fits` says whether its type and its kind of reference are those needed.
fn used(state: NameState, fits: bool) -> Option<Rule>
    ensures { result ≡ spec.used state fits }
{
    match state {
        NameState::Unbound => Some(Rule::BoundOnce),
        NameState::Spent => Some(Rule::NotSpent),
        _ => need(fits, Rule::RightKind),
    }
}

fn used_non_null(state: NameState, fits: bool) -> Option<Rule>
    ensures { result ≡ spec.used_non_null state fits }
{
    used(state, fits).or(need(!state.may_be_null(), Rule::NotNull))
}

fn owning(state: NameState, fits: bool) -> Option<Rule>
    ensures { result ≡ spec.used_non_null state (owns state && fits) }
{
    used_non_null(state, state.owns() && fits)
}

/// The name of an `if` may be null.
pub fn doubtful(state: NameState) -> Option<Rule>
    ensures { result ≡ spec.doubtful state }
{
    used(state, state.may_be_null())
}

fn declared(setting: &Setting, map: MapId) -> Option<Rule>
    ensures { result
        ≡ spec.declared (spec.setting_of setting.now.scenario.now setting.now.kind) map }
{
    need(type_of_map(setting, map).is_some(), Rule::RightKind)
}

fn pushes(
    setting: &Setting,
    lock: HeldLock,
    table: &NameTable,
    graph: MapId,
    name: &Name,
) -> Option<Rule>
    ensures { result
        ≡ (spec.pushes (spec.setting_of setting.now.scenario.now setting.now.kind) lock
        (names_of table.now) graph name.now).needs }
{
    let state = table.state(name.as_bytes());
    under_lock_of(graph, lock).or(owning(state, fits_map(setting, graph, state)))
}

fn pops(setting: &Setting, lock: HeldLock, graph: MapId) -> Option<Rule>
    ensures { result
        ≡ option_or (spec.under_lock_of graph lock)
        (spec.declared (spec.setting_of setting.now.scenario.now setting.now.kind) graph) }
{
    under_lock_of(graph, lock).or(declared(setting, graph))
}

fn removes(setting: &Setting, lock: HeldLock, tree: MapId, state: NameState) -> Option<Rule>
    ensures { result
        ≡ option_or (spec.under_lock_of tree lock)
        (option_or (spec.non_owning tree state)
        (spec.declared (spec.setting_of setting.now.scenario.now setting.now.kind) tree)) }
{
    under_lock_of(tree, lock).or(used(state, leads_into(state, tree)).or(declared(setting, tree)))
}

fn exchanges(
    setting: &Setting,
    lock: HeldLock,
    table: &NameTable,
    slot: MapId,
    given: &Option<Name>,
) -> Option<Rule>
    ensures { (y : _)
        → result
        ≡ (spec.row_of (spec.setting_of setting.now.scenario.now setting.now.kind) lock
        (names_of table.now) (Exchange y slot given.now)).needs }
{
    match given {
        Some(name) => {
            let state = table.state(name.as_bytes());
            outside_locks(lock).or(owning(state, fits_map(setting, slot, state)))
        }
        None => outside_locks(lock).or(declared(setting, slot)),
    }
}

/// The first need of a statement that isn't met, but for that of the name which it binds.
pub fn needs(setting: &Setting, lock: HeldLock, table: &NameTable, action: &Action) -> Option<Rule>
    ensures { result
        ≡ (spec.row_of (spec.setting_of setting.now.scenario.now setting.now.kind) lock
        (names_of table.now) action.now).needs }
{
    match action {
        Action::New { .. } => outside_locks(lock),
        Action::Drop { name } => {
            let state = table.state(name.as_bytes());
            outside_locks(lock).or(owning(state, fits_any(state)))
        }
        Action::Acquire { of, .. } => {
            let state = table.state(of.as_bytes());
            owning(state, fits_counted(setting, state))
        }
        Action::Get { name, field } => {
            let state = table.state(name.as_bytes());
            used_non_null(state, fits_field(setting, field, state))
        }
        Action::Exchange { slot, given, .. } => exchanges(setting, lock, table, *slot, given),
        Action::PushFront { list, name } => pushes(setting, lock, table, *list, name),
        Action::PushBack { list, name } => pushes(setting, lock, table, *list, name),
        Action::Add { tree, name } => pushes(setting, lock, table, *tree, name),
        Action::PopFront { list, .. } => pops(setting, lock, *list),
        Action::PopBack { list, .. } => pops(setting, lock, *list),
        Action::First { tree, .. } => pops(setting, lock, *tree),
        Action::Remove { tree, node, .. } => removes(
            setting,
            lock,
            *tree,
            table.state(node.as_bytes()),
        ),
        Action::Lock { .. } => no_handler(setting).or(no_second_lock(lock)),
        Action::Unlock => unlocks(lock),
        Action::Yield => no_handler(setting).or(outside_locks(lock)),
        Action::If { name, .. } => doubtful(table.state(name.as_bytes())),
        Action::Repeat { .. } => None,
        Action::Section { .. } => None,
    }
}

// What a push leaves of the name that it pushes.
fn pushed(setting: &Setting, graph: MapId, state: NameState) -> NameState
    ensures { result
        ≡ spec.pushed (spec.setting_of setting.now.scenario.now setting.now.kind) graph state }
{
    match state.type_in() {
        Some(type_id) => {
            if is_counted(setting, type_id) {
                NameState::Spent
            } else {
                NameState::Soft(type_id, graph)
            }
        }
        None => NameState::Spent,
    }
}

fn push<'a>(
    setting: &Setting,
    log: &mut NameLog<'a>,
    graph: MapId,
    name: &'a Name,
) -> Result<(), Stop>
    ensures ok { OnOk result
        ((l : _)
        → names_in log.new
        ≡ (spec.pushes (spec.setting_of setting.now.scenario.now setting.now.kind) l
        (names_in log.old) graph name.now).leaves) }
    ensures kept { OnOk result (KeepsStart log.old log.new) }
    ensures err { IfErr result (λ stop. stop ≡ NoMemory) }
{
    let state = pushed(setting, graph, log.table.state(name.as_bytes()));
    log.put(name.as_bytes(), state)
}

/// Spends what a statement spends.
pub fn leave<'a>(setting: &Setting, log: &mut NameLog<'a>, action: &'a Action) -> Result<(), Stop>
    ensures ok { OnOk result
        ((l : _)
        → names_in log.new
        ≡ (spec.row_of (spec.setting_of setting.now.scenario.now setting.now.kind) l
        (names_in log.old) action.now).leaves) }
    ensures kept { OnOk result (KeepsStart log.old log.new) }
    ensures err { IfErr result (λ stop. stop ≡ NoMemory) }
{
    match action {
        Action::Drop { name } => log.put(name.as_bytes(), NameState::Spent),
        Action::Exchange {
            given: Some(name),
            ..
        } => log.put(name.as_bytes(), NameState::Spent),
        Action::PushFront { list, name } => push(setting, log, *list, name),
        Action::PushBack { list, name } => push(setting, log, *list, name),
        Action::Add { tree, name } => push(setting, log, *tree, name),
        Action::PopFront { .. } | Action::PopBack { .. } | Action::Remove { .. } | Action::Unlock =>
            { log.end_soft() }
        _ => Ok(()),
    }
}

// What is bound to an object of the type that a map holds, or to null.
fn maybe_of(setting: &Setting, map: MapId) -> Option<NameState>
    ensures { result
        ≡ option_map Maybe
        (spec.type_of_map (spec.setting_of setting.now.scenario.now setting.now.kind) map) }
{
    match type_of_map(setting, map) {
        Some(type_id) => Some(NameState::Maybe(type_id)),
        None => None,
    }
}

// What `first` binds.
fn maybe_soft_of(setting: &Setting, tree: MapId) -> Option<NameState>
    ensures { result
        ≡ option_map (λ u. MaybeSoft u tree)
        (spec.type_of_map (spec.setting_of setting.now.scenario.now setting.now.kind) tree) }
{
    match type_of_map(setting, tree) {
        Some(type_id) => Some(NameState::MaybeSoft(type_id, tree)),
        None => None,
    }
}

// What `acquire` binds.
fn owned_of(table: &NameTable, of: &Name) -> Option<NameState>
    ensures { result ≡ option_map Owned (type_in ((names_of table.now).state of.now)) }
{
    match table.state(of.as_bytes()).type_in() {
        Some(type_id) => Some(NameState::Owned(type_id)),
        None => None,
    }
}

fn bound<'a>(name: &'a Name, state: Option<NameState>) -> Option<(&'a [u8], NameState)>
    ensures { IsBinding result (option_map (λ s. record { name = name.now; state = s }) state) }
{
    match state {
        Some(state) => Some((name.as_bytes(), state)),
        None => None,
    }
}

/// The name that a statement binds, with its state.
pub fn binding<'a>(
    setting: &Setting,
    table: &NameTable,
    action: &'a Action,
) -> Option<(&'a [u8], NameState)>
    ensures { (l : _)
        → IsBinding result
        (spec.row_of (spec.setting_of setting.now.scenario.now setting.now.kind) l
        (names_of table.now) action.now).bound }
{
    match action {
        Action::New { name, type_id, .. } => Some((name.as_bytes(), NameState::Maybe(*type_id))),
        Action::Acquire { name, of } => bound(name, owned_of(table, of)),
        Action::Exchange { name, slot, .. } => bound(name, maybe_of(setting, *slot)),
        Action::PopFront { name, list } => bound(name, maybe_of(setting, *list)),
        Action::PopBack { name, list } => bound(name, maybe_of(setting, *list)),
        Action::First { name, tree } => bound(name, maybe_soft_of(setting, *tree)),
        Action::Remove { name, tree, .. } => bound(name, maybe_of(setting, *tree)),
        _ => None,
    }
}

// Binds a name that is free.
fn bind<'a>(
    log: &mut NameLog<'a>,
    line: u32,
    bound: Option<(&'a [u8], NameState)>,
) -> Result<(), Stop>
    ensures bound { (b : Option spec.Binding) → IsBinding bound.entry b
        → IsBound result (names_in log.old) (names_in log.new) line b }
    ensures kept { OnOk result (KeepsStart log.old log.new) }
{
    if let Some((name, state)) = bound {
        if !log.table.state(name).is_free() {
            return Err(Stop::Broken {
                line,
                rule: Rule::BoundOnce,
            });
        }
        log.put(name, state)?;
    }
    Ok(())
}

fn lock_after(lock: HeldLock, action: &Action) -> HeldLock
    ensures { result ≡ spec.lock_after lock action.now }
{
    match action {
        Action::Lock { graph } => HeldLock::Here(*graph),
        Action::Unlock => HeldLock::Nothing,
        _ => lock,
    }
}

/// A statement without blocks: its first broken rule, or the names and the lock after it.
pub fn simple<'a>(
    setting: &Setting,
    log: &mut NameLog<'a>,
    lock: HeldLock,
    line: u32,
    action: &'a Action,
) -> Result<HeldLock, Stop>
    ensures judged { IsJudged result (names_in log.new)
        (after_statement line lock action.now
        (spec.row_of (spec.setting_of setting.now.scenario.now setting.now.kind) lock
        (names_in log.old) action.now)) }
    ensures kept { OnOk result (KeepsStart log.old log.new) }
{
    if let Some(rule) = needs(setting, lock, &log.table, action) {
        return Err(Stop::Broken { line, rule });
    }
    let bound = binding(setting, &log.table, action);
    leave(setting, log, action)?;
    bind(log, line, bound)?;
    Ok(lock_after(lock, action))
}
