//! The laws of logs and of the lists that they leave.

ghost use Rattle.std.specs.Prelude.{◌≡◌, ◌≢◌, ◌↔◌, ◌<◌, ◌≤◌, ◌+◌, ◌∷◌, ◌++◌, [], ℕ, Bool, List, Option, Some, IfSome, map, length, true};
ghost use Rattle.std.specs.Bool.{Decides};
ghost use Rattle.bm_journal.specs.declared.entry.Entry.{Entry};
ghost use Rattle.bm_journal.specs.declared.entry.Entry.TheVariants.{Fill};
ghost use Rattle.bm_journal.specs.declared.units.Units.{Units};
ghost use Rattle.bm_law.specs.State.{Row, State, idle_side, opening, seen, seven_lists};
ghost use Rattle.bm_law.specs.Effect.{effect};
ghost use Rattle.bm_law.specs.Lists.{Log, AllName, Leaves, Names, after, brought, lists_of, names};
ghost use Rattle.bm_law.specs.Spans.{Above, Records};
ghost use Rattle.bm_law.specs.Alone.{Adds, Alone};
ghost use Rattle.bm_law.specs.Kept.{Between, Inside, Kept, Ready, RowKept};
ghost use Rattle.bm_law.specs.Plain.{all_plain, is_plain};
ghost use Rattle.bm_law.specs.Phrases.{AddPhrase, AllocPhrase, DelayPhrase, FreePhrase};
ghost use Rattle.bm_law.specs.Null.{Nothing, PopsFit, RepliesFit, Wanted, all_apart, asked_at_end};
ghost use Rattle.bm_law.specs.Stands.{Known, Once, comes_in, goes_out, stands, times};
ghost use Rattle.bm_law.specs.Waiting.{CountsAgree, Steady, pops_waiting, pushes_waiting};
ghost use Rattle.bm_law.specs.Lengths.{Countable, Sized, Tells};
ghost use Rattle.bm_law.specs.Places.{Moves};
ghost use Rattle.bm_journal.specs.Recording.{Appends};
ghost use Rattle.bm_journal.specs.declared.counts.Counts.{Counts};
ghost use Rattle.bm_journal.specs.Counts.{counts_after, no_counts};

/// Before the opening nothing stands anywhere, no count waits, a call of any level may begin, and the log is empty; a
/// fill leaves it so that a call may begin.
pub fn opening_law<A>()
    ensures log { (p : ℕ) → Leaves p [] (opening p) }
    ensures none { (n p : ℕ) → stands n (opening p) ≡ 0 }
    ensures ready { (l p : ℕ) (s : State A) → s ≡ opening p → Ready l s }
    ensures counts { (p : ℕ) (s : State A) → s ≡ opening p → CountsAgree s }
    ensures fill { (l k c : ℕ) (us : Units) (units : List A) (s : State A) → Ready l s
        → Ready l (effect k (Fill c us) units s) }
{}

/// A log in two parts: the second part goes on from where the first one ended. One more entry that names what is there
/// leaves what it does to the lists.
pub fn fold_law()
    ensures lists { (s : State ℕ) (a b : Log) → after s (a ++ b) ≡ after (after s a) b }
    ensures named { (s : State ℕ) (a b : Log)
        → AllName s (a ++ b) ↔ (AllName s a × AllName (after s a) b) }
    ensures more { (p : ℕ) (log : Log) (s : State ℕ) (l : ℕ) (e : Entry) →
        Leaves p log s → Names l e s → Leaves p (log ++ (l, e) ∷ []) (effect l e (brought e s) s) }
{}

/// One step of caches whose units are seen through a function, as tokens by their numbers, with the entry that it
/// records: a log that was told is told on, and no unit stands twice.
pub fn step_law<A>()
    ensures told { (f : A → ℕ) (p : ℕ) (before now : Option Log) (s t : State A) (l : ℕ) (e : Entry)
        (units : List A) →
        Appends before l e now → t ≡ effect l e units s → brought e (seen f s) ≡ map f units
        → Names l e (seen f s) →
        IfSome before (λ log. Leaves p log (seen f s))
        → IfSome now (λ log. Leaves p log (seen f t)) }
    ensures once { (f : A → ℕ) (s t : State A) (l : ℕ) (e : Entry) (units : List A) →
        t ≡ effect l e units s → Known l e →
        ((n : ℕ) → stands n (seen f s) + times n (comes_in e (map f units)) ≤ 1) → Once (seen f t) }
{}

/// The lists that are computed are those that a log leaves whose entries name what is there.
pub fn lists_law()
    ensures names { (l : ℕ) (e : Entry) (s : State ℕ) → Decides (names l e s) (Names l e s) }
    ensures lists { (p : ℕ) (log : Log) (s : State ℕ) → (lists_of p log ≡ Some s) ↔ Leaves p log s }
{}

/// An entry that names what is there moves units as the table of moves says, and no others.
pub fn places_law()
    ensures { (p l life : ℕ) (e : Entry) (s : State ℕ) → Names l e s → Moves p l life e s }
{}

/// An entry does the same to a state that is seen through a function, as tokens by their numbers.
pub fn seen_law<A, B>()
    ensures { (f : A → B) (l : ℕ) (e : Entry) (units : List A) (s : State A) →
        seen f (effect l e units s) ≡ effect l e (map f units) (seen f s) }
{}

/// Stretches of a log join: of none, of one entry, of two stretches, and of what calls of higher levels add.
pub fn stretch_law()
    ensures none { (l : ℕ) (a : Option Log) → Records l [] a a }
    ensures one { (l : ℕ) (e : Entry) (a b : Option Log) → Appends a l e b
        → Records l (e ∷ []) a b }
    ensures join { (l : ℕ) (v w : List Entry) (a b c : Option Log) → Records l v a b
        → Records l w b c → Records l (v ++ w) a c }
    ensures higher { (l k : ℕ) (v : List Entry) (a b : Option Log) → l < k → Records k v a b
        → Records l [] a b }
    ensures points { (l : ℕ) (a b : Option Log) → Above (l + 1) a b → Records l [] a b }
    ensures above { (l : ℕ) (v : List Entry) (a b : Option Log) → Records l v a b → Above l a b }
    ensures above_join { (l : ℕ) (a b c : Option Log) → Above l a b → Above l b c → Above l a c }
{}

/// Stretches of a log into which no handler came: of none, of one entry, of two stretches. What the log gained over one
/// is exactly what the call recorded.
pub fn alone_law()
    ensures none { (l : ℕ) (a : Option Log) → Alone l a a }
    ensures one { (l : ℕ) (e : Entry) (a b : Option Log) → Appends a l e b → Alone l a b }
    ensures join { (l : ℕ) (a b c : Option Log) → Alone l a b → Alone l b c → Alone l a c }
    ensures adds { (l : ℕ) (own : List Entry) (a b : Option Log) → Records l own a b → Alone l a b
        → Adds l own a b }
    ensures adds_none { (l : ℕ) (a : Option Log) → Adds l [] a a }
    ensures adds_one { (l : ℕ) (e : Entry) (a b : Option Log) → Appends a l e b
        → Adds l (e ∷ []) a b }
    ensures adds_join { (l : ℕ) (v w : List Entry) (a b c : Option Log) → Adds l v a b
        → Adds l w b c → Adds l (v ++ w) a c }
    ensures records { (l : ℕ) (own : List Entry) (a b : Option Log) → Adds l own a b
        → Records l own a b }
{}

/// What calls of higher levels keep, they keep one after the other; and a whole call keeps it for the levels below.
pub fn kept_law<A>()
    ensures none { (l : ℕ) (s : State A) → Kept l s s }
    ensures join { (l : ℕ) (s t u : State A) → Kept l s t → Kept l t u → Kept l s u }
    ensures row_none { (r : Row A) → RowKept r r }
    ensures row { (r s t : Row A) → RowKept r s → RowKept s t → RowKept r t }
    ensures inside { (r s t : Row A) → Inside r s → Inside s t → Inside r t }
    ensures between_none { (l c n : ℕ) (s : State A) → Between l c n n s s }
    ensures between { (l c m n o : ℕ) (s t u : State A) → Between l c m n s t → Between l c n o t u
        → Between l c m o s u }
    ensures point { (l c n : ℕ) (s t : State A) → Kept (l + 1) s t → Between l c n n s t }
    ensures whole { (l c : ℕ) (s t : State A) → Between l c 0 0 s t
        → (t.rows c).deferred ≡ (s.rows c).deferred → Kept l s t }
    ensures ready { (l c : ℕ) (s t : State A) →
        Ready l s → Between l c 0 0 s t → Ready (l + 1) t → t.sides l ≡ idle_side → Ready l t }
{}

/// An entry that isn't one of deferred work leaves what deferred work alone writes; the phrases of single calls have no
/// other entries.
pub fn plain_law<A>()
    ensures entry { (l : ℕ) (e : Entry) (units : List A) (s : State A) (c : ℕ) →
        is_plain e ≡ true → ((effect l e units s).rows c).deferred ≡ (s.rows c).deferred }
    ensures alloc { (c : ℕ) (own : List Entry) → AllocPhrase c own → all_plain own ≡ true }
    ensures free { (c u home : ℕ) (own : List Entry) → FreePhrase c u home own
        → all_plain own ≡ true }
    ensures delay { (c u home : ℕ) (in_progress : Bool) (own : List Entry)
        → DelayPhrase c u home in_progress own → all_plain own ≡ true }
    ensures add { (c u : ℕ) (own : List Entry) → AddPhrase c u own → all_plain own ≡ true }
{}

/// The count of units: what stood in the lists and hands or came in stands there after an entry, or has gone out. So no
/// unit stands twice after an entry if none did before and what comes in stood nowhere; and what goes out stands nowhere.
pub fn units_law()
    ensures count { (n l : ℕ) (e : Entry) (units : List ℕ) (s : State ℕ) →
        Known l e
        → stands n (effect l e units s) + times n (goes_out l e s)
        ≡ stands n s + times n (comes_in e units) }
    ensures once { (l : ℕ) (e : Entry) (units : List ℕ) (s : State ℕ) →
        Known l e → ((n : ℕ) → stands n s + times n (comes_in e units) ≤ 1)
        → Once (effect l e units s) }
    ensures gone { (n l : ℕ) (e : Entry) (units : List ℕ) (s : State ℕ) →
        Known l e → comes_in e units ≡ [] → Once s → 1 ≤ times n (goes_out l e s)
        → stands n (effect l e units s) ≡ 0 }
{}

/// The pigeonhole: where no unit stands twice and unit numbers are below `most`, all lists of a class and a hand together
/// have at most `most` units.
pub fn room_law<A>()
    ensures { (most : ℕ) (f : A → ℕ) → ((u : A) → f u < most) → (s : State A) (c l : ℕ) →
        c < 11 → l < 4 → Once (seen f s)
        → length (seven_lists (s.rows c)) + length (s.sides l).hand ≤ most }
{}

/// The free counts agree with the lists after each entry that stands where calls have it; and what waits
/// for its count still does after handlers.
pub fn counts_law<A>()
    ensures entry { (l : ℕ) (e : Entry) (units : List A) (s : State A) →
        l < 4 → Steady l e s → CountsAgree s → CountsAgree (effect l e units s) }
    ensures handlers { (l c : ℕ) (s t : State A) → Kept l s t → Ready l s → Ready l t →
        (pops_waiting c t ≡ pops_waiting c s) × (pushes_waiting c t ≡ pushes_waiting c s) }
{}

/// A recorder's counts are those of the lists before the opening, and after each entry that names what it moves, while
/// there are fewer units than a counter can count.
pub fn lengths_law<A>()
    ensures opening { (p : ℕ) (s : State A) → s ≡ opening p → Tells no_counts s }
    ensures entry { (l : ℕ) (e : Entry) (units : List A) (k : Counts) (s : State A) →
        Known l e → Sized l e units s → Countable l e units s → Tells k s
        → Tells (counts_after l e k) (effect l e units s) }
{}

/// A log that names what is there has `pop none` exactly where Free is empty; an allocation's phrase has the reply that
/// its pop or its raise calls for, and frees and additions neither ask nor answer.
pub fn null_law()
    ensures pops { (p : ℕ) (log : Log) (s : State ℕ) → Leaves p log s → PopsFit (opening p) log }
    ensures replies { (c : ℕ) (own : List Entry) → AllocPhrase c own
        → RepliesFit Wanted own × (asked_at_end Wanted own ≡ Nothing) }
    ensures apart { (own : List Entry) → all_apart own ≡ true
        → RepliesFit Nothing own × (asked_at_end Nothing own ≡ Nothing) }
    ensures free { (c u home : ℕ) (own : List Entry) → FreePhrase c u home own
        → all_apart own ≡ true }
    ensures delay { (c u home : ℕ) (in_progress : Bool) (own : List Entry)
        → DelayPhrase c u home in_progress own → all_apart own ≡ true }
    ensures add { (c u : ℕ) (own : List Entry) → AddPhrase c u own → all_apart own ≡ true }
{}
