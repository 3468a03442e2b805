//! Laws about tasks that wait, over sections one after another.
//!
//! The contract of each function is a law that callers can cite. The functions do nothing.
ghost use Rattle.uart_waits.specs.Laws.{EachIsWokenOnce, NobodyIsForgotten};
ghost use Rattle.uart_waits.specs.Occupancy.{LeavesNoneBehind, MarksTell, NextServes};

/// No wake is lost. In whatever order sections come, and whatever each of them sees of the rings:
/// each task that came is handed out to be woken, once, or it still waits. And who still waits
/// after a section has nothing to be woken for.
#[tactic(auto, using(crate::proofs::Sections::waking))]
pub fn no_wake_is_lost<W>()
    // promise: who waits at shared rings is woken once, or has nothing to be woken for, in whatever
    //   order sections come
    // with: no_wake_is_lost.once, no_wake_is_lost.none_forgotten
    // shown by: three_tasks_and_a_handler_lose_no_wake, two_readers_and_a_handler_lose_no_wake
    ensures once { EachIsWokenOnce W }
    ensures none_forgotten { NobodyIsForgotten W }
{}

/// No handler is forgotten. In whatever order handlers and other callers come and are done: who
/// leaves the rings free has begun to serve for each handler that was refused meanwhile.
///
/// A caller that goes in the middle, by a panic, has not: the mark stays, and whoever comes next
/// serves it. Until somebody comes, nobody does.
///
/// How often what is owed is served in a row is no matter of marks: `storms_end` of `uart_ring`
/// says when a chip is found stuck, which then makes no more edges.
pub fn no_handler_is_forgotten()
    // promise: a handler that comes while shared rings are in use is not forgotten: who uses them
    //   begins to serve what it came for before leaving, or, if that one goes by a panic, whoever
    //   comes next does
    // with: no_handler_is_forgotten.marks, no_handler_is_forgotten.none_behind,
    //   no_handler_is_forgotten.next_serves
    // shown by: a_handler_in_the_middle_of_a_call_is_served_at_its_end,
    //   handlers_of_another_thread_are_all_served,
    //   a_call_that_unwinds_leaves_the_mark_to_the_next_one
    // a mark is there exactly if a handler came for which nobody has begun to serve
    ensures marks { MarksTell }
    // so who is done and leaves the rings free leaves none behind
    ensures none_behind { LeavesNoneBehind }
    // if who uses the rings goes in the middle, who comes next does not leave before serving
    ensures next_serves { NextServes }
{}
