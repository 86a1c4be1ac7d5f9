//! Units that go back to the pages.

ghost use Rattle.bm_law_order.specs.Act.{Act};
ghost use Rattle.bm_law_order.specs.Act as act;
ghost use Rattle.bm_work.specs.Owed.{Whatever};
ghost use Rattle.std.specs.Prelude.{◌≡◌, ◌≢◌, ◌+◌, ◌≤◌, ◌<◌, ℕ, [], None, Some, IsTrue, is_some, length, map, vec_capacity, vec_len, IfOk, OnOk, OnErr, ◌∷◌, ◌++◌, List};
ghost use Rattle.std.specs.List.{All};
ghost use Rattle.bm_journal.specs.declared.entry.Entry.TheVariants as entry;
ghost use Rattle.bm_journal.specs.declared.units.Units.TheVariants.{Whole};
ghost use Rattle.bm_law.specs.Stands.{Known};
ghost use Rattle.bm_law.specs.State.{State};
ghost use Rattle.bm_post.specs.Rights.{Holds, IsSettled, MayLeave, numbers};
ghost use Rattle.bm_cache.specs.Lent.{Ended, Lends, SecondIsLent, with_second};
ghost use Rattle.bm_cache.specs.Placed.{Placed};
ghost use Rattle.bm_cache.specs.Shown.{shown};
ghost use Rattle.bm_cache.specs.Tokens.{Token};
ghost use Rattle.bm_law_work.specs.Parts.{Nothing, Say};
ghost use Rattle.bm_law_work.specs.WorkPhrases.{IsReturn};
ghost use Rattle.bm_work.specs.Works.{Handled, Posted, Stands, Stopped, Works};

use crate::Desk;
use crate::loans::write_numbers;
use bm_cache::Host;
use bm_class::Class;
use bm_journal::Recorder;
use bm_page::Unit;
use bm_post::Post;
use bm_word::NoMemory;

/// Takes out all units of Second, to give them back. Want of memory is the only refusal.
fn lend_second<R: Recorder, H: Desk<R>>(host: &mut H, class: Class) -> Result<Vec<Unit>, NoMemory>
    requires placed { Placed R.log R.counts (H.Host.held host.old) }
    requires asked { H.Host.asked host.old }
    ensures units { IfOk result
        (λ us. us.items ≡ ((shown (H.Host.held host.old)).rows class).deferred.second) }
    ensures lent { OnOk result
        (Lends R.log R.counts (with_second class [] (shown (H.Host.held host.old)))
        (H.Host.held host.old) (H.Host.held host.new)) }
    ensures refused { OnErr result ((H.Host.held host.new) ≡ (H.Host.held host.old)) }
    ensures known { Known (H.Host.face host.old).level (entry.Return class (Whole [])) }
    ensures handled { Handled H.Host.face H.Host.pending H.stays H.shared H.Host.tests host.old
        host.new }
    ensures asked { H.Host.asked host.new }
{
    let level = host.level();
    host.caches().second_out(level, class)
}

/// Gives units back to the stock, none of which waits.
fn give_back<R: Recorder, H: Desk<R>>(host: &mut H, units: Vec<Unit>)
    requires mine { Holds (H.W.Knows.rights (H.shared host.old)) units.items }
    requires fit { All (MayLeave (H.W.Knows.rights (H.shared host.old))) units.items }
    requires settled { All (IsSettled (H.W.Knows.rights (H.shared host.old))) units.items }
    ensures posted { Posted H.Host.face H.Host.pending H.stays H.Host.held
        (λ h. H.W.Knows.known (H.shared h)) H.Host.tests (numbers units.items) host.old host.new }
    ensures owes { (done : List Act) → H.asked_owes done host.old
        → H.asked_owes (done ++ act.GivesBack (numbers units.items) ∷ []) host.new }
{
    host.world().put_back(units);
}

/// Ends the loan of units that went back.
fn end_return<R: Recorder, H: Desk<R>>(host: &mut H, class: Class, numbers: Vec<u16>)
    requires lent { (s : State Token)
        × SecondIsLent R.log R.counts class numbers.items s (H.Host.held host.old) }
    requires progress { IsTrue
        (is_some ((shown (H.Host.held host.old)).rows class).deferred.tracing) }
    ensures step { Ended R.log (H.Host.face host.old).level
        (entry.Return class (Whole numbers.items)) (H.Host.held host.old) (H.Host.held host.new) }
    ensures placed { Placed R.log R.counts (H.Host.held host.new) }
    ensures handled { Handled H.Host.face H.Host.pending H.stays H.shared H.Host.tests host.old
        host.new }
    ensures sound { H.asked_owes (act.GivesBack numbers.items ∷ []) host.old
        → H.Host.sound host.new }
{
    let level = host.level();
    host.caches().returned(level, class, numbers);
}

/// All units of Second go back to the stock, and that is recorded. The tracing batch is no more in progress. Want of memory is
/// the only refusal, and changes nothing.
pub fn return_now<R: Recorder, H: Desk<R>>(
    host: &mut H,
    class: Class,
    numbers: Vec<u16>,
) -> Result<(), NoMemory>
    requires stands { Stands R.log R.counts H.Host.asked H.Host.tests H.Host.face H.Host.held
        host.old }
    requires progress { IsTrue
        (is_some ((shown (H.Host.held host.old)).rows class).deferred.tracing) }
    requires empty { vec_len numbers ≡ 0 }
    requires room { length ((shown (H.Host.held host.old)).rows class).deferred.second
        ≤ vec_capacity numbers }
    ensures ok { OnOk result
        (Works R.log H.Host.face H.Host.pending H.stays H.Host.held
        (λ h. H.W.Knows.known (H.shared h)) 0 0 (λ l. Say l (IsReturn class)) host.old
        host.new) }
    ensures err { OnErr result
        (Stopped R.log R.counts H.Host.face H.Host.held (λ l. Nothing) host.old host.new) }
    ensures deferred { OnOk result
        (((shown (H.Host.held host.new)).rows class).deferred
        ≡ record ((shown (H.Host.held host.old)).rows class).deferred
        { second = []; tracing = None }) }
    ensures kept { OnOk result
        ((k : ℕ) → k ≢ class
        → ((shown (H.Host.held host.new)).rows k).deferred
        ≡ ((shown (H.Host.held host.old)).rows k).deferred) }
    ensures side { OnOk result
        ((shown (H.Host.held host.new)).sides (H.Host.face host.old).level
        ≡ (shown (H.Host.held host.old)).sides (H.Host.face host.old).level) }
    ensures back { OnOk result
        (Stands R.log R.counts H.Host.sound H.Host.tests H.Host.face H.Host.held host.new) }
{
    let mut numbers = numbers;
    let units = lend_second(host, class)?;
    write_numbers(&mut numbers, &units);
    give_back(host, units);
    end_return(host, class, numbers);
    Ok(())
}
