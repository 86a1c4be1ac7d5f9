//! The laws, over an order and over its logs.

ghost use Rattle.std.specs.Prelude.{◌≡◌, ◌≤◌, ℕ, ◌+◌, Option, None, Some, false, true, List, [], ◌++◌, length};
ghost use Rattle.bm_journal.specs.declared.ids.ObjId.{ObjId};
ghost use Rattle.bm_journal.specs.declared.past.Past.{Past};
ghost use Rattle.bm_graph.specs.Objects.{Node, has_object, ids_of, list_object, tree_object};
ghost use Rattle.bm_graph.specs.Replay.{replay};
ghost use Rattle.bm_law.specs.Lists.{Log};
ghost use Rattle.bm_law_lives.specs.Together.{times};
ghost use Rattle.bm_law_order.specs.Calls.{closes};
ghost use Rattle.bm_law_order.specs.Chunk.{Chunk, acts_of, entries_of};
ghost use Rattle.bm_law_order.specs.Graphs.{GraphsLead, Shelf, place_of};
ghost use Rattle.bm_law_order.specs.Orders.{AllFit, Order, over, part_of};
ghost use Rattle.bm_law_order.specs.Story.{at_level};
ghost use Rattle.bm_law_objects.specs.Objects.{Owned, owned_after};
ghost use Rattle.bm_law_laid.specs.Once.{named_by};
ghost use Rattle.bm_law_laid.specs.OrderOf.{IsOrderOf};
ghost use Rattle.bm_law_graphs.specs.Shelves.{IsShelved, Shelved, ShelvedFit, nothing_shelved, shelved_after};
ghost use Rattle.bm_law_graphs.specs.History.{GraphHistory, calls_over, placed};
ghost use Rattle.bm_law_graphs.specs.Refusals.{RefusalLaw, stands_from};
ghost use Rattle.bm_law_graphs.specs.GraphLaws.{GraphLaws};
ghost use Rattle.bm_law_graphs.specs.Keys.{KeysLaw};
ghost use Rattle.bm_law_graphs.specs.Locks.{LocksLaw};
ghost use Rattle.bm_law_graphs.specs.Takes.{TakesLaw, life_within, put_by, taken_by};
ghost use Rattle.bm_law_graphs.specs.ToldCalls.{FoundApart, IsTold, NamesGraph, ShelvesGo};
ghost use Rattle.bm_law_graphs.specs.Uncalled.{CallNone};

/// Over an order each history grows by the calls that name it, each at the position that its log names; and so the history of
/// each list and tree has right replies, and has the calls of all logs.
pub fn histories_law()
    ensures part { (names : List (List ℕ)) (name : List ℕ) (o : Order) (s : Shelved) →
        AllFit (shelved_after names) (ShelvedFit names) o s →
        placed 0 ((over (shelved_after names) o s).shelves.histories name)
        ≡ placed 0 (s.shelves.histories name) ++ calls_over names name o s.objects.calls }
    ensures logs { (names : List (List ℕ)) (logs : List Log) (o : Order) → IsOrderOf logs o →
        IsShelved names o → (name : List ℕ) → GraphHistory names name
        ((over (shelved_after names) o nothing_shelved).shelves.histories name) logs }
{}

/// An object is in the list or tree to which a history replays exactly where the history put it in and didn't take it since.
pub fn content_law()
    ensures list { (history : List Past) (content : List ObjId) →
        replay list_object history ≡ Some content →
        (id : ObjId) → has_object content id ≡ stands_from id false history }
    ensures tree { (history : List Past) (content : List Node) →
        replay tree_object history ≡ Some content →
        (id : ObjId) → has_object (ids_of content) id ≡ stands_from id false history }
{}

/// A refused push names the list or tree in which its object is.
pub fn refusals_law()
    ensures histories { (names : List (List ℕ)) (o : Order) → IsShelved names o →
        RefusalLaw names (over (shelved_after names) o nothing_shelved).shelves.histories }
{}

/// Over an order a life is put into lists and trees as often as it is taken out, once more if it stands in one at last, and once
/// less if it stood in one at first. So it is in its logs where nothing stands in any at last.
pub fn takes_law()
    ensures part { (names : List (List ℕ)) (u life : ℕ) (o : Order) (s : Shelved) →
        AllFit (shelved_after names) (ShelvedFit names) o s →
        times life (named_by (put_by u) o) + times life (life_within (s.shelves.within u))
        ≡ times life (named_by (taken_by u) o)
        + times life (life_within ((over (shelved_after names) o s).shelves.within u)) }
    ensures logs { (names : List (List ℕ)) (logs : List Log) (o : Order) → IsOrderOf logs o →
        IsShelved names o → ((u : ℕ) →
        (over (shelved_after names) o nothing_shelved).shelves.within u ≡ None) → TakesLaw logs }
{}

/// While a processor holds the lock of a list or tree nobody else calls it: the calls that it makes meanwhile have consecutive
/// positions.
pub fn locks_law()
    ensures logs { (names : List (List ℕ)) (logs : List Log) (o : Order) → IsOrderOf logs o →
        IsShelved names o → LocksLaw logs }
{}

/// The key of an addition is the first value with which its object was made.
pub fn keys_law()
    ensures logs { (names : List (List ℕ)) (logs : List Log) (o : Order) → IsOrderOf logs o →
        IsShelved names o → (name : List ℕ) →
        KeysLaw ((over (shelved_after names) o nothing_shelved).shelves.histories name) logs }
{}

/// So the histories that an order makes, with its logs, keep all of these laws together, where nothing stands in any list or tree
/// at last.
pub fn graphs_law()
    ensures logs { (names : List (List ℕ)) (logs : List Log) (o : Order) → IsOrderOf logs o →
        IsShelved names o → ((u : ℕ) →
        (over (shelved_after names) o nothing_shelved).shelves.within u ≡ None) →
        GraphLaws names (over (shelved_after names) o nothing_shelved).shelves.histories logs }
{}

/// In an order that calls no list or tree and takes no lock each entry finds what it needs of them; none of them has a history,
/// nothing stands in one, and nobody holds a lock.
pub fn uncalled_law()
    ensures shelved { (names : List (List ℕ)) (o : Order) → CallNone o → IsShelved names o }
    ensures histories { (names : List (List ℕ)) (o : Order) → CallNone o → (name : List ℕ) →
        (over (shelved_after names) o nothing_shelved).shelves.histories name ≡ [] }
    ensures within { (names : List (List ℕ)) (o : Order) → CallNone o → (u : ℕ) →
        (over (shelved_after names) o nothing_shelved).shelves.within u ≡ None }
    ensures unlocked { (names : List (List ℕ)) (o : Order) → CallNone o → (name : List ℕ) →
        (over (shelved_after names) o nothing_shelved).shelves.holders name ≡ None }
{}

/// A chunk of which enough is known behind the log of its processor takes the lists and trees along: each of its entries finds what
/// it needs, and they become what the chunk's acts make of them. And where the histories of a story only grow into ones that no
/// undeclared name has, each list or tree that a chunk calls is declared.
pub fn chunk_law()
    ensures goes { (names : List (List ℕ)) (p l : ℕ) (c : Chunk) (x : Shelved) (before now : Shelf)
        (log : Log) → FoundApart names → IsTold names p l log c x before now →
        ShelvesGo names p log (at_level l (entries_of c)) x now }
    ensures declared { (names : List (List ℕ)) (c : Chunk) (before now : Shelf)
        (last : List ℕ → List Past) → GraphsLead names (acts_of c) before now →
        ((name : List ℕ) → length names ≤ place_of names name → last name ≡ []) →
        ((name : List ℕ) → length (now.histories name) ≤ length (last name)) → NamesGraph names c }
{}

/// Along an order objects go their own way, beside the lists and trees; and the closing has begun where processor 0's log begins it.
pub fn beside_law()
    ensures objects { (names : List (List ℕ)) (o : Order) (x : Shelved) (y : Owned) →
        x.objects ≡ y.objects →
        (over (shelved_after names) o x).objects ≡ (over owned_after o y).objects }
    ensures closing { (names : List (List ℕ)) (o : Order) (x : Shelved) →
        closes (part_of 0 o) ≡ true → (over (shelved_after names) o x).shelves.closing ≡ true }
{}
