//! The laws of due handlers, and of logs in which they stand.

ghost use Rattle.std.specs.Prelude.{◌≡◌, ◌↔◌, ◌<◌, ◌+◌, ◌-◌, ◌^◌, min, All, ◌∷◌, ◌++◌, [], ℕ, List, Bool, Option, Some, None, slice_get, true, false};
ghost use Rattle.std.specs.List.{AllPass};
ghost use Rattle.bm_journal.specs.declared.entry.Entry.{Entry};
ghost use Rattle.bm_journal.specs.declared.entry.Entry.TheVariants as entry;
ghost use Rattle.bm_journal.specs.declared.ids.ObjId.{ObjId};
ghost use Rattle.bm_journal.specs.declared.period.Period.{Period};
ghost use Rattle.bm_journal.specs.declared.total.Total.TheVariants as total;
ghost use Rattle.bm_journal.specs.Totals.{counts_of, share_of, total_in};
ghost use Rattle.bm_lang.specs.declared.scenario.AtLine.{AtLine};
ghost use Rattle.bm_law.specs.Lists.{Log};
ghost use Rattle.bm_law.specs.Spans.{AllFrom};
ghost use Rattle.bm_due.specs.Due.{IsDue, NoneIsDue, due_handler, left_after};
ghost use Rattle.bm_due.specs.Standing.{Begins, Ends, Returns, Standing, Stays, Steps, due_in, handlers_stand, kind_of, left_in, level_of, standing_after};
ghost use Rattle.bm_due.specs.Asking.{Asks, NoneEnds, Progress, Runs};

/// The due handler in other words. It is one of those that haven't run; it is used up when it begins, and where none is due
/// none is. The number of the step may
/// stay at the greatest one of its type, since the steps of planned handlers are smaller.
pub fn due_law()
    ensures due { (n l : ℕ) (left : List AtLine) (line : AtLine)
        → (due_handler false n l left ≡ Some line) ↔ IsDue n l left line }
    ensures used_up { (n l : ℕ) (left : List AtLine) (line : AtLine) → (h : IsDue n l left line)
        → left_after false n l left ≡ h.before ++ h.behind }
    ensures none { (n l : ℕ) (left : List AtLine)
        → (due_handler false n l left ≡ None) ↔ NoneIsDue n l left }
    ensures kept { (ended : Bool) (n l : ℕ) (left : List AtLine) → due_handler ended n l left ≡ None
        → left_after ended n l left ≡ left }
    ensures ended { (n l : ℕ) (left : List AtLine) → due_handler true n l left ≡ None }
    ensures above { (ended : Bool) (n l : ℕ) (left : List AtLine) (line : AtLine)
        → due_handler ended n l left ≡ Some line → l < line.level }
    ensures among { (p : AtLine → Bool) (ended : Bool) (n l : ℕ) (left : List AtLine)
        (line : AtLine) →
        AllPass p left → due_handler ended n l left ≡ Some line → p line ≡ true }
    ensures others { (p : AtLine → Bool) (ended : Bool) (n l : ℕ) (left : List AtLine) →
        AllPass p left → AllPass p (left_after ended n l left) }
    ensures greatest { (ended : Bool) (n l : ℕ) (left : List AtLine)
        → All (λ line. line.step < 2 ^ 32) left →
        due_handler ended (min n (2 ^ 64 - 1)) l left ≡ due_handler ended n l left }
    ensures greatest_left { (ended : Bool) (n l : ℕ) (left : List AtLine)
        → All (λ line. line.step < 2 ^ 32) left →
        left_after ended (min n (2 ^ 64 - 1)) l left ≡ left_after ended n l left }
{}

/// A log goes on where its first part ended, and has taken as many steps as its entries count.
pub fn standing_law()
    ensures parts { (names : List (List ℕ)) (one two : Log) (s : Option Standing) →
        standing_after names (one ++ two) s ≡ standing_after names two (standing_after names one s) }
    ensures counted { (names : List (List ℕ)) (log : Log) (s t : Standing) →
        standing_after names log (Some s) ≡ Some t → t.steps ≡ s.steps + total_in total.Steps log }
{}

/// What one entry asks for, and what it makes of where a processor is: a step, an entry that is none, and the begin and the
/// end of a handler and of the processor.
pub fn entry_law()
    ensures steps { (names : List (List ℕ)) (l : ℕ) (e : Entry) (s t : Standing)
        → kind_of e ≡ Steps →
        (standing_after names ((l, e) ∷ []) (Some s) ≡ Some t)
        ↔ ((l ≡ level_of s.running) × (due_in s ≡ None)
        × (t ≡ record s { steps = s.steps + 1; resumes = false })) }
    ensures stays { (names : List (List ℕ)) (l : ℕ) (e : Entry) (s t : Standing)
        → kind_of e ≡ Stays →
        (standing_after names ((l, e) ∷ []) (Some s) ≡ Some t)
        ↔ ((l ≡ level_of s.running) × (s.resumes ≡ false) × (t ≡ s)) }
    ensures begins { (names : List (List ℕ)) (l : ℕ) (name : List ℕ) (s t : Standing) →
        (standing_after names ((l, entry.Handler name) ∷ []) (Some s) ≡ Some t)
        ↔ ((line : AtLine) × (due_in s ≡ Some line) × (l ≡ line.level)
        × (slice_get names line.script.0 ≡ Some name)
        × (t ≡ record s { running = line ∷ s.running; left = left_in s; resumes = false })) }
    ensures returns { (names : List (List ℕ)) (l : ℕ) (name : List ℕ) (s t : Standing) →
        (standing_after names ((l, entry.Back name) ∷ []) (Some s) ≡ Some t)
        ↔ ((line : AtLine) × (lines : List AtLine) × (s.running ≡ line ∷ lines) × (l ≡ line.level)
        × (slice_get names line.script.0 ≡ Some name) × (s.resumes ≡ false)
        × (t ≡ record s { running = lines; resumes = true })) }
    ensures ends { (names : List (List ℕ)) (l : ℕ) (s t : Standing) →
        (standing_after names ((l, entry.Ended) ∷ []) (Some s) ≡ Some t)
        ↔ ((l ≡ 0) × (s.running ≡ []) × (s.resumes ≡ false) × (t ≡ record s { ended = true })) }
{}

/// An entry is a step exactly where the total of steps counts one. What takes from lists and trees is none, nor is the end of a
/// grace period.
pub fn kind_law()
    ensures steps { (e : Entry) → (kind_of e ≡ Steps) ↔ (share_of total.Steps (counts_of e) ≡ 1) }
    ensures pop_front { (name : List ℕ) (x : Option ObjId) (at : ℕ)
        → kind_of (entry.PopFront name x at) ≡ Stays }
    ensures pop_back { (name : List ℕ) (x : Option ObjId) (at : ℕ)
        → kind_of (entry.PopBack name x at) ≡ Stays }
    ensures first { (name : List ℕ) (x : Option ObjId) (at : ℕ)
        → kind_of (entry.First name x at) ≡ Stays }
    ensures finish { (period : Period) → kind_of (entry.Finish period) ≡ Stays }
{}

/// Code that asks before each of its steps which handler is due, and lets it run, until none is, leaves a log in which the
/// handlers stand where they are due; and so does what is left after the processor has ended, where none is due any more.
/// And only such code does: a log in which they stand, and no handler runs at its end, is one that it leaves. What one stretch of code leaves and then another one leaves, is what one leaves. Code leaves entries of its own level and
/// above, and the handlers that it lets run leave entries above it.
pub fn asking_law()
    ensures runs { (names : List (List ℕ)) (lines : List AtLine) (log : Log) (a : Progress) →
        Runs names false 0 (record { steps = 0; left = lines }) log a
        → handlers_stand names lines log ≡ true }
    ensures ends { (names : List (List ℕ)) (lines : List AtLine) (log closing : Log)
        (a b : Progress) →
        Runs names false 0 (record { steps = 0; left = lines }) log a
        → Runs names true 0 a closing b →
        handlers_stand names lines (log ++ (0, entry.Ended) ∷ closing) ≡ true }
    ensures only { (names : List (List ℕ)) (ended : Bool) (a : Progress) (log : Log)
        (s t : Standing)
        → NoneEnds log →
        s
        ≡ record
        { steps = a.steps; running = []; left = a.left; ended = ended; resumes = false } →
        standing_after names log (Some s) ≡ Some t → t.running ≡ [] → t.resumes ≡ false →
        Runs names ended 0 a log (record { steps = t.steps; left = t.left }) }
    ensures stretches { (names : List (List ℕ)) (ended : Bool) (l : ℕ) (a b c : Progress)
        (one two : Log) →
        Runs names ended l a one b → Runs names ended l b two c
        → Runs names ended l a (one ++ two) c }
    ensures from { (names : List (List ℕ)) (ended : Bool) (l : ℕ) (a b : Progress) (log : Log) →
        Runs names ended l a log b → AllFrom l log }
    ensures above { (names : List (List ℕ)) (ended : Bool) (l : ℕ) (a b : Progress) (log : Log) →
        Asks names ended l a log b → AllFrom (l + 1) log }
{}
