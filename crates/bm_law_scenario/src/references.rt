//! Worked references to an object, and wrong ones beside them.

ghost use Rattle.bm_law_scenario.specs.Calls.{RunsAcquire, RunsGet, RunsStill};
ghost use Rattle.bm_law_scenario.specs.WorkedDrops.{a_field, acquires, both_hold, counted_types, gives_one_up, holding_three, other_field, reads, y_holds, y_name};
ghost use Rattle.bm_law_scenario.specs.WorkedJournal.{types, x_name};

/// Another name acquires a reference to a counted object, and sees that there is one; then the first name gives its own up, and sees that
/// there are two. An acquire doesn't see that there is none, nor a drop that is answered so that there is one; objects of a type without
/// a count have one reference alone; and a name doesn't keep the reference that it gave up.
pub fn worked_references()
    ensures acquired { RunsAcquire counted_types y_name x_name holding_three (acquires 1)
        both_hold }
    ensures left { RunsStill counted_types x_name both_hold (gives_one_up 2) y_holds }
    ensures none_there { ¬ RunsAcquire counted_types y_name x_name holding_three (acquires 0)
        both_hold }
    ensures acquired_uncounted { ¬ RunsAcquire types y_name x_name holding_three (acquires 1)
        both_hold }
    ensures none_left { ¬ RunsStill counted_types x_name both_hold (gives_one_up 1) y_holds }
    ensures left_uncounted { ¬ RunsStill types x_name both_hold (gives_one_up 2) y_holds }
    ensures kept { ¬ RunsStill counted_types x_name both_hold (gives_one_up 2) both_hold }
{}

/// A script reads the field of an object that a name holds, by its place. It doesn't read another place, a field that the type doesn't have, or
/// through a name that holds nothing; and the names hold what they held.
pub fn worked_reads()
    ensures read { RunsGet types x_name a_field holding_three (reads 0) holding_three }
    ensures other_place { ¬ RunsGet types x_name a_field holding_three (reads 1) holding_three }
    ensures other_field { ¬ RunsGet types x_name other_field holding_three (reads 0) holding_three }
    ensures through_none { ¬ RunsGet types y_name a_field holding_three (reads 0) holding_three }
{}
