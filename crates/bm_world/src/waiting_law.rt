//! Laws of units that wait.

ghost use Rattle.std.specs.Prelude.{◌≡◌, ◌≤◌, ◌<◌, ℕ, true, false, Option, Some, None};
ghost use Rattle.bm_page.specs.declared.units.Seal.{Seal};
ghost use Rattle.bm_world.specs.WaitingState.{WaitingState, rights_now, wait_of};
ghost use Rattle.bm_world.specs.declared.wait.Wait.{Wait};

/// A unit that waits isn't settled, whatever its seal. One that waits without a seal isn't ripe either, before the tracing
/// domain has a number that is at least the stamp that was taken when it began to wait.
pub fn waits_without_a_seal()
    ensures settled { (state : WaitingState) (wait : Wait) (n life : ℕ) (seal : Option Seal)
        → wait_of state.waits n ≡ Some wait → (rights_now state).settled n life seal ≡ false }
    ensures ripe { (state : WaitingState) (wait : Wait) (n life : ℕ)
        → wait_of state.waits n ≡ Some wait → state.side.grace.tracing.number < wait.tracing
        → (rights_now state).ripe n life None ≡ false }
{}

/// A unit is ripe only if it waits. With a seal its stamp was taken no earlier than the wait began, its number is at least the
/// stamp, and the plain domain has had that number; without one the tracing domain has come to the stamp that was taken when
/// the wait began. So a unit that waits, with a seal whose number the plain domain hasn't reached, is neither settled nor ripe.
pub fn ripe_only_when_passed()
    ensures sealed { (state : WaitingState) (n life : ℕ) (seal : Seal)
        → (rights_now state).ripe n life (Some seal) ≡ true
        → (wait : Wait) × (wait_of state.waits n ≡ Some wait) × (wait.plain ≤ seal.stamp)
        × (seal.stamp ≤ seal.seen) × (seal.seen ≤ state.side.grace.plain.number) }
    ensures unsealed { (state : WaitingState) (n life : ℕ)
        → (rights_now state).ripe n life None ≡ true
        → (wait : Wait) × (wait_of state.waits n ≡ Some wait)
        × (wait.tracing ≤ state.side.grace.tracing.number) }
    ensures not_yet { (state : WaitingState) (wait : Wait) (n life : ℕ) (seal : Seal)
        → wait_of state.waits n ≡ Some wait → state.side.grace.plain.number < seal.seen
        → ((rights_now state).settled n life (Some seal) ≡ false)
        × ((rights_now state).ripe n life (Some seal) ≡ false) }
{}
