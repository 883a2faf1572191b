//! Laws of the histories of loads, and small loads whose histories were worked out by hand.

ghost use Rattle.std.specs.Prelude.{[], true, false};
ghost use Rattle.resil_virtual.specs.AtOnce.{SameAtOnce};
ghost use Rattle.resil_virtual.specs.Examples.{burst, burst_load, earlier, earlier_load, end_comes_last, end_comes_last_load, first, first_load, handed, handed_load, last_look, last_look_load, late_burst, later, later_load, own_times, own_times_load, pool, timed_out, timed_out_load, two_finishes, two_finishes_load};
ghost use Rattle.resil_virtual.specs.Simulated.{GoesOn, OneHistory, opening};

/// One load and one pool have one history. The function does nothing: its contract is the point.
pub fn one_history()
    ensures { OneHistory }
{}

/// In a pool without a time to wake a load has the history of a pool whose workers take a job at once. The function does nothing: its
/// contract is the point.
pub fn same_at_once()
    ensures { SameAtOnce }
{}

/// What happens to small loads, whose idle workers may end after 50 microseconds.
pub fn worked_loads()
    ensures two_finishes { GoesOn (pool 2 2 1 false 0) two_finishes_load [] two_finishes }
    ensures end_comes_last { GoesOn (pool 1 2 1 false 0) end_comes_last_load [] end_comes_last }
    ensures own_times { GoesOn (pool 1 3 1 false 0) own_times_load [] own_times }
    ensures burst { GoesOn (pool 8 8 5 false 0) burst_load [] burst }
    ensures late_burst { GoesOn (pool 8 8 5 false 100) burst_load [] late_burst }
    ensures handed { GoesOn (pool 0 3 0 false 0) handed_load [] handed }
    ensures first { GoesOn (pool 0 2 1 false 100) first_load [] first }
    ensures timed_out { GoesOn (pool 1 1 1 true 0) timed_out_load (opening (pool 1 1 1 true 0)) timed_out }
    ensures last_look { GoesOn (pool 1 2 1 false 100) last_look_load [] last_look }
    ensures earlier { GoesOn (pool 2 2 1 false 0) earlier_load [] earlier }
    ensures later { GoesOn (pool 1 1 1 false 0) later_load [] later }
{}
