//! Theorems about sessions with parts, each the contract of a function with an empty body.

ghost use Rattle.trace_session.specs.PartExamples.{HasOnly, end_out_of_place, end_out_of_place_session, part_without_end, part_without_end_session, part_in_a_part, part_in_a_part_session, command_before_threads, command_before_threads_session, fault_in_a_part, fault_in_a_part_session, nine_threads, nine_threads_session};
ghost use Rattle.trace_session.specs.PartLaws.{OneThreadHasOneSession, OneThreadBeginsOneSession};

pub use script_reader::laws::parts_have_few_threads;

/// A script with no line `parallel` has one lawful session, that of one thread.
pub fn one_thread_has_one_session()
    ensures { OneThreadHasOneSession }
{}

/// If a session of such a script is cut short, the strings that it wrote are the first ones of that session.
pub fn one_thread_begins_one_session()
    ensures { OneThreadBeginsOneSession }
{}

/// Faults in parts, worked by hand: each of these scripts has one lawful session.
pub fn examples_are_played()
    ensures end { HasOnly end_out_of_place end_out_of_place_session }
    ensures endless { HasOnly part_without_end part_without_end_session }
    ensures inner { HasOnly part_in_a_part part_in_a_part_session }
    ensures command { HasOnly command_before_threads command_before_threads_session }
    ensures fault { HasOnly fault_in_a_part fault_in_a_part_session }
    ensures nine { HasOnly nine_threads nine_threads_session }
{}
