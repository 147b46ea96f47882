//! Examples of the five parts of what a run promises.
ghost use Rattle.std.specs.Prelude.{◌≡◌, [], ◌∷◌, Some, None, true, false, codes};
ghost use Rattle.cell_world.specs.Stores.{empty_store};
ghost use Rattle.cell_world.specs.Images.{Global, Wrote, Reopened, empty_image};
ghost use Rattle.cell_world.specs.Outside.{TellsNothing, TellsContents, TellsTrail};
ghost use Rattle.cell_world.specs.declared.cells.Away.TheVariants.{Suspect};
ghost use Rattle.cell_world.specs.declared.cells.Cell.TheVariants as cell;
ghost use Rattle.cell_world.specs.declared.cells.KeyType.TheVariants.{Int};
ghost use Rattle.cell_world.specs.declared.cells.MapKind.TheVariants as kind;
ghost use Rattle.cell_world.specs.declared.cells.Status.TheVariants.{Online};
ghost use Rattle.cell_world.specs.declared.operations.Phase.TheVariants.{Idle};
ghost use Rattle.plain_model.specs.declared.commands.Command.TheVariants as command;
ghost use Rattle.plain_model.specs.declared.finish.Reason.TheVariants.{BadByte, LongLine};
ghost use Rattle.plain_model.specs.declared.finish.RunStatus.TheVariants as status;
ghost use Rattle.plain_model.specs.declared.replies.Refusal.TheVariants as refused;
ghost use Rattle.plain_model.specs.declared.replies.Reply.TheVariants as reply;
ghost use Rattle.plain_model.specs.Headline.{LeavesUnknown, SoundAtEachMoment, IsLeftGoing, IsLegalHistory, OnlyWhatHappened, InOrder, EachOnceInOrder, EndsAnswered, EndsWithMemory, named_locations, IsFirstUnknown, StatusCause, ComesByInput, ComesByOpening, KeepsToStatus, StatusHasCause, GoesOnFrom, Headline, FollowsTo, IsLegalByStates, HeadlineAlone};
ghost use Rattle.plain_model.specs.Written.{EachReply};
ghost use Rattle.plain_model.specs.Worked.{small_range, mapping_over};
ghost use Rattle.model_examples.specs.Values.{move_op, row_m, map_commit, image_m, map_trail, answered, make_map, two_sites, with_global, empty_state, with_map, at_moment, map_entry, second_entry, trail_of};
ghost use Rattle.world_examples.specs.Examples.{job_at, map_m, map_n, site_a, site_b};
ghost use Rattle.model_examples.specs.Runs.{nothing_done, list_trail, list_asked, list_refused, silent_step, ok_line, step_done, map_answered, asks, two_asked, going_at, world_of, with_faults, with_sink_fault, nothing_wrong, wrong_words, wrong_line, too_many_bytes, source_failed, without_number, unknown_store, site_c, site_d};

// ---- sound, legal, and written

/// The stores are sound at each moment of the run.
pub fn sound_at_each_moment()
    ensures of_empty_stores { SoundAtEachMoment list_trail 0 }
    ensures of_one_map { SoundAtEachMoment map_trail 0 }
    ensures never_unsound_between { SoundAtEachMoment (trail_of (Reopened Global without_number ∷ Reopened Global empty_store ∷ [])) 0 → ⊥ }
    ensures never_unsound_at_the_end { SoundAtEachMoment (trail_of (Reopened Global without_number ∷ [])) 1 → ⊥ }
{}

/// The history is legal on the trail, and nothing is left going unless the run stopped.
pub fn legal_history()
    ensures one_refused { IsLegalHistory false list_trail 0 list_asked (list_refused ∷ []) }
    ensures one_map { IsLegalHistory false map_trail 0 (asks 1 (make_map map_m) ∷ []) (map_entry ∷ []) }
    ensures never_past_the_end { IsLegalHistory false (trail_of []) 0 two_asked (map_entry ∷ []) → ⊥ }
    ensures never_waiting_for_nobody { IsLegalHistory false (trail_of []) 0 two_asked (at_moment (map_answered (reply.Pending 1)) 0 ∷ []) → ⊥ }
{}

/// Only what happened is written, and all of it unless the run stopped; then the last line is the one that failed.
pub fn only_what_happened()
    ensures all { OnlyWhatHappened (EachReply false) list_trail 0 (list_refused ∷ []) status.Refused }
    ensures of_one_map { OnlyWhatHappened (EachReply false) map_trail 0 (map_entry ∷ []) status.Done }
    ensures but_the_last_line { OnlyWhatHappened (EachReply false) (trail_of []) 0 (list_refused ∷ []) status.WriteFault }
    ensures but_the_line_of_a_map { OnlyWhatHappened (EachReply false) (trail_of (map_commit ∷ [])) 0 (map_entry ∷ []) status.WriteFault }
    ensures never_less_unless_it_stopped { OnlyWhatHappened (EachReply false) (trail_of []) 0 (list_refused ∷ []) status.Refused → ⊥ }
    ensures never_less_where_the_last_has_no_line { OnlyWhatHappened (EachReply false) (trail_of []) 0 (list_refused ∷ at_moment silent_step 0 ∷ []) status.WriteFault → ⊥ }
    ensures never_too_early { OnlyWhatHappened (EachReply false) (trail_of (Wrote ok_line ∷ nothing_done ∷ [])) 0 (second_entry ∷ []) status.Done → ⊥ }
{}

// ---- what is left going, and the order of the commands

/// Nothing is left going unless the run stopped, and then it is the session's next command.
pub fn left_going()
    ensures nothing { IsLeftGoing false two_asked (map_entry ∷ second_entry ∷ []) 1 None }
    ensures the_next_where_it_stopped { IsLeftGoing true two_asked (map_entry ∷ []) 1 (Some (going_at (make_map map_n))) }
    ensures never_unless_it_stopped { IsLeftGoing false two_asked (map_entry ∷ []) 1 (Some (going_at (make_map map_n))) → ⊥ }
    ensures never_before_its_turn { IsLeftGoing true two_asked [] 1 (Some (going_at (make_map map_n))) → ⊥ }
    ensures never_after_the_last { IsLeftGoing true two_asked (map_entry ∷ second_entry ∷ []) 1 (Some (going_at (make_map map_n))) → ⊥ }
    ensures never_of_another_session { IsLeftGoing true two_asked [] 2 (Some (going_at (make_map map_m))) → ⊥ }
{}

/// The commands of the entries with a reply are a front of the script, session by session.
pub fn in_order()
    ensures all { InOrder false two_asked (map_entry ∷ second_entry ∷ []) }
    ensures a_front { InOrder false two_asked (map_entry ∷ []) }
    ensures none { InOrder false two_asked [] }
    ensures never_twice { InOrder false (asks 1 (make_map map_m) ∷ []) (map_entry ∷ map_entry ∷ []) → ⊥ }
    ensures never_in_another_order { InOrder false two_asked (second_entry ∷ map_entry ∷ []) → ⊥ }
    ensures never_of_another_session { InOrder false (asks 2 (make_map map_m) ∷ []) (map_entry ∷ []) → ⊥ }
{}

/// Entries without a reply are of the command that is under way.
pub fn silent_in_order()
    ensures before_the_reply { InOrder false (asks 1 (command.Step 1) ∷ []) (silent_step ∷ step_done ∷ []) }
    ensures where_it_stopped { InOrder true (asks 1 (command.Step 1) ∷ []) (silent_step ∷ []) }
    ensures never_without_a_reply { InOrder false (asks 1 (command.Step 1) ∷ []) (silent_step ∷ []) → ⊥ }
    ensures never_of_another_command { InOrder false (asks 1 (make_map map_m) ∷ []) (silent_step ∷ map_entry ∷ []) → ⊥ }
    ensures never_of_one_that_is_not_next { InOrder true two_asked (map_entry ∷ silent_step ∷ []) → ⊥ }
{}

/// They are all of them where the status is 0 or 1, and where it is 5 and the history has a fault.
pub fn each_once_in_order()
    ensures done { EachOnceInOrder two_asked (map_entry ∷ second_entry ∷ []) status.Done }
    ensures two_sessions { EachOnceInOrder (asks 1 (make_map map_m) ∷ asks 2 (command.List map_m) ∷ []) (answered 2 (command.List map_m) (reply.Refused refused.NoMap) ∷ map_entry ∷ []) status.Refused }
    ensures stopped_at_a_write { EachOnceInOrder two_asked (map_entry ∷ []) status.WriteFault }
    ensures opening_failed { EachOnceInOrder two_asked [] status.StoreFault }
    ensures never_done_before_the_end { EachOnceInOrder two_asked (map_entry ∷ []) status.Done → ⊥ }
    ensures never_refused_before_the_end { EachOnceInOrder two_asked (map_answered (reply.Refused refused.MapExists) ∷ []) status.Refused → ⊥ }
    ensures never_a_fault_before_the_end { EachOnceInOrder two_asked (map_answered reply.Fault ∷ []) status.StoreFault → ⊥ }
    ensures all_after_a_fault { EachOnceInOrder two_asked (map_answered reply.Fault ∷ second_entry ∷ []) status.StoreFault }
{}

// ---- the status has its cause

/// Status 0 or 1: by the replies.
pub fn done_or_refused()
    ensures done { StatusCause nothing_wrong (world_of TellsNothing) (world_of TellsNothing) (map_entry ∷ []) status.Done }
    ensures never_done_with_a_refusal { StatusCause nothing_wrong (world_of TellsNothing) (world_of TellsNothing) (map_answered (reply.Refused refused.MapExists) ∷ []) status.Done → ⊥ }
    ensures never_done_with_a_pending { StatusCause nothing_wrong (world_of TellsNothing) (world_of TellsNothing) (map_answered (reply.Pending 1) ∷ []) status.Done → ⊥ }
    ensures never_done_with_a_fault { StatusCause nothing_wrong (world_of TellsNothing) (world_of TellsNothing) (map_answered reply.Fault ∷ []) status.Done → ⊥ }
    ensures never_done_without_memory { StatusCause nothing_wrong (world_of TellsNothing) (world_of TellsNothing) (map_answered reply.Memory ∷ []) status.Done → ⊥ }
    ensures refused { StatusCause nothing_wrong (world_of TellsNothing) (world_of TellsNothing) (map_entry ∷ map_answered (reply.Refused refused.MapExists) ∷ []) status.Refused }
    ensures refused_by_pending { StatusCause nothing_wrong (world_of TellsNothing) (world_of TellsNothing) (map_answered (reply.Pending 1) ∷ []) status.Refused }
    ensures never_refused_where_all_is_done { StatusCause nothing_wrong (world_of TellsNothing) (world_of TellsNothing) (map_entry ∷ []) status.Refused → ⊥ }
    ensures never_refused_with_a_fault { StatusCause nothing_wrong (world_of TellsNothing) (world_of TellsNothing) (map_answered (reply.Pending 1) ∷ map_answered reply.Fault ∷ []) status.Refused → ⊥ }
{}

/// Status 2, 3 or 7: by the words and the input.
pub fn caused_by_input()
    ensures words { StatusCause wrong_words (world_of TellsNothing) (world_of TellsNothing) [] (status.BadWords 2) }
    ensures never_words_elsewhere { StatusCause wrong_words (world_of TellsNothing) (world_of TellsNothing) [] (status.BadWords 1) → ⊥ }
    ensures script { StatusCause wrong_line (world_of TellsNothing) (world_of TellsNothing) [] (status.BadScript 3 BadByte) }
    ensures never_another_line { StatusCause wrong_line (world_of TellsNothing) (world_of TellsNothing) [] (status.BadScript 1 BadByte) → ⊥ }
    ensures never_another_reason { StatusCause wrong_line (world_of TellsNothing) (world_of TellsNothing) [] (status.BadScript 3 LongLine) → ⊥ }
    ensures reading { StatusCause source_failed (world_of TellsNothing) (world_of TellsNothing) [] status.ReadFault }
    ensures never_a_read_fault { StatusCause nothing_wrong (world_of TellsNothing) (world_of TellsNothing) [] status.ReadFault → ⊥ }
    ensures length { StatusCause too_many_bytes (world_of TellsNothing) (world_of TellsNothing) [] status.TooLong }
    ensures never_too_long { StatusCause nothing_wrong (world_of TellsNothing) (world_of TellsNothing) [] status.TooLong → ⊥ }
{}

/// Status 4 or 5: by the counts of faults. Status 6 needs nothing.
pub fn caused_by_faults()
    ensures writing { StatusCause nothing_wrong (world_of TellsNothing) (with_sink_fault (world_of TellsNothing)) (map_entry ∷ []) status.WriteFault }
    ensures never_writing_without_a_rise { StatusCause nothing_wrong (world_of TellsNothing) (world_of TellsNothing) (map_entry ∷ []) status.WriteFault → ⊥ }
    ensures never_writing_of_no_line { StatusCause nothing_wrong (world_of TellsNothing) (with_sink_fault (world_of TellsNothing)) (map_entry ∷ silent_step ∷ []) status.WriteFault → ⊥ }
    ensures never_writing_of_nothing { StatusCause nothing_wrong (world_of TellsNothing) (with_sink_fault (world_of TellsNothing)) [] status.WriteFault → ⊥ }
    ensures a_store { StatusCause nothing_wrong (world_of TellsNothing) (with_faults 1 (world_of TellsNothing)) (map_answered reply.Fault ∷ []) status.StoreFault }
    ensures the_opening { StatusCause nothing_wrong (world_of TellsNothing) (with_faults 1 (world_of TellsNothing)) [] status.StoreFault }
    ensures never_a_store_without_a_rise { StatusCause nothing_wrong (world_of TellsNothing) (world_of TellsNothing) (map_answered reply.Fault ∷ []) status.StoreFault → ⊥ }
    ensures never_a_store_without_a_fault { StatusCause nothing_wrong (world_of TellsNothing) (with_faults 1 (world_of TellsNothing)) (map_entry ∷ []) status.StoreFault → ⊥ }
    ensures never_a_store_without_memory { StatusCause nothing_wrong (world_of TellsNothing) (with_faults 1 (world_of TellsNothing)) (map_answered reply.Fault ∷ map_answered reply.Memory ∷ []) status.StoreFault → ⊥ }
    ensures memory { StatusCause nothing_wrong (world_of TellsNothing) (world_of TellsNothing) (map_entry ∷ []) status.Memory }
{}

/// And the status comes: first the words are looked at, then the source, then the script.
pub fn comes_by_input()
    ensures nothing_wrong { ComesByInput nothing_wrong status.Done }
    ensures words { ComesByInput wrong_words (status.BadWords 2) }
    ensures words_without_memory { ComesByInput wrong_words status.Memory }
    ensures never_past_wrong_words { ComesByInput wrong_words status.Done → ⊥ }
    ensures never_a_read_fault_before_the_words { ComesByInput wrong_words status.ReadFault → ⊥ }
    ensures too_long { ComesByInput too_many_bytes status.TooLong }
    ensures a_read_fault_before_the_end { ComesByInput too_many_bytes status.ReadFault }
    ensures never_past_too_many_bytes { ComesByInput too_many_bytes status.Done → ⊥ }
    ensures script { ComesByInput wrong_line (status.BadScript 3 BadByte) }
    ensures never_past_a_wrong_line { ComesByInput wrong_line status.Done → ⊥ }
    ensures never_another_line { ComesByInput wrong_line (status.BadScript 1 BadByte) → ⊥ }
    ensures never_a_store_fault_before_the_script { ComesByInput wrong_line status.StoreFault → ⊥ }
{}

/// The locations that a cell names.
pub fn locations_of_cells()
    ensures shard { named_locations (cell.Shard map_m site_a) ≡ site_a ∷ [] }
    ensures mapping { named_locations (cell.Piece (mapping_over (small_range 0 10) Online)) ≡ site_a ∷ [] }
    ensures log_olds_news_and_job { named_locations (cell.Log move_op) ≡ site_a ∷ site_b ∷ site_a ∷ site_b ∷ [] }
    ensures job { named_locations (cell.Job (job_at 0 Idle)) ≡ site_a ∷ site_b ∷ [] }
    ensures site_state { named_locations (cell.SiteState site_b Suspect) ≡ site_b ∷ [] }
    ensures none_of_a_map { named_locations (cell.Map map_m kind.Range Int) ≡ [] }
    ensures none_of_a_row { named_locations (cell.Row (row_m 5) []) ≡ [] }
{}

/// Of the locations that cells name and the world doesn't know, the first in cell order.
pub fn first_unknown()
    ensures the_first { IsFirstUnknown unknown_store (site_a ∷ site_b ∷ []) site_c }
    ensures the_next_where_the_first_is_known { IsFirstUnknown unknown_store (site_a ∷ site_c ∷ []) site_d }
    ensures never_the_second { IsFirstUnknown unknown_store (site_a ∷ site_b ∷ []) site_d → ⊥ }
    ensures never_a_known_one { IsFirstUnknown unknown_store (site_a ∷ site_c ∷ []) site_c → ⊥ }
    ensures never_one_that_no_cell_names { IsFirstUnknown empty_store (site_a ∷ []) site_b → ⊥ }
{}

/// Status 8: by the stores.
pub fn caused_by_opening()
    ensures unknown { StatusCause nothing_wrong (world_of (TellsContents (with_global unknown_store))) (world_of (TellsContents (with_global unknown_store))) [] (status.UnknownLocation site_c) }
    ensures never_the_second { StatusCause nothing_wrong (world_of (TellsContents (with_global unknown_store))) (world_of (TellsContents (with_global unknown_store))) [] (status.UnknownLocation site_d) → ⊥ }
    ensures never_a_known_location { StatusCause nothing_wrong (world_of TellsNothing) (world_of TellsNothing) [] (status.UnknownLocation site_a) → ⊥ }
    ensures never_of_empty_stores { StatusCause nothing_wrong (world_of (TellsContents two_sites)) (world_of (TellsContents two_sites)) [] (status.UnknownLocation site_c) → ⊥ }
{}

/// And it comes, unless a status comes that is looked for before it.
pub fn comes_by_opening()
    ensures unknown { ComesByOpening (world_of (TellsContents (with_global unknown_store))) (status.UnknownLocation site_c) }
    ensures failed { ComesByOpening (world_of (TellsContents (with_global unknown_store))) status.StoreFault }
    ensures wrong_script { ComesByOpening (world_of (TellsContents (with_global unknown_store))) (status.BadScript 3 BadByte) }
    ensures nothing_unknown { ComesByOpening (world_of (TellsContents two_sites)) status.Done }
    ensures never_done { ComesByOpening (world_of (TellsContents (with_global unknown_store))) status.Done → ⊥ }
    ensures never_a_write_fault { ComesByOpening (world_of (TellsContents (with_global unknown_store))) status.WriteFault → ⊥ }
    ensures nothing_told { ComesByOpening (world_of TellsNothing) status.Done }
    ensures never_done_on_a_trail { ComesByOpening (world_of (TellsTrail (trail_of (Reopened Global unknown_store ∷ [])))) status.Done → ⊥ }
    ensures never_the_second { ComesByOpening (world_of (TellsContents (with_global unknown_store))) (status.UnknownLocation site_d) → ⊥ }
{}

/// Where the stores name an unknown location nothing is done.
pub fn left_unknown()
    ensures nothing_done { LeavesUnknown (world_of (TellsContents (with_global unknown_store))) (world_of (TellsContents (with_global unknown_store))) [] }
    ensures all_known { LeavesUnknown (world_of (TellsContents two_sites)) (world_of (TellsContents image_m)) (map_entry ∷ []) }
    ensures never_an_entry { LeavesUnknown (world_of (TellsContents (with_global unknown_store))) (world_of (TellsContents (with_global unknown_store))) (list_refused ∷ []) → ⊥ }
    ensures never_a_change { LeavesUnknown (world_of (TellsContents (with_global unknown_store))) (world_of (TellsContents two_sites)) [] → ⊥ }
{}

/// The last entry has a reply.
pub fn ends_answered()
    ensures one { EndsAnswered (silent_step ∷ step_done ∷ []) }
    ensures never_none { EndsAnswered (map_entry ∷ silent_step ∷ []) → ⊥ }
    ensures never_nothing { EndsAnswered [] → ⊥ }
{}

/// With `memory` the history ends.
pub fn ends_with_memory()
    ensures the_last { EndsWithMemory (map_entry ∷ map_answered reply.Memory ∷ []) }
    ensures none { EndsWithMemory (map_entry ∷ second_entry ∷ []) }
    ensures never_before_another { EndsWithMemory (map_answered reply.Memory ∷ second_entry ∷ []) → ⊥ }
{}

/// What a status says besides its cause.
pub fn keeps_to_status()
    ensures done { KeepsToStatus (world_of TellsNothing) (world_of TellsNothing) (map_entry ∷ second_entry ∷ []) status.Done }
    ensures one_fault { KeepsToStatus (world_of TellsNothing) (with_faults 1 (world_of TellsNothing)) (map_answered reply.Fault ∷ []) status.StoreFault }
    ensures more_than_faults { KeepsToStatus (world_of TellsNothing) (with_faults 5 (world_of TellsNothing)) (map_entry ∷ []) status.Done }
    ensures nothing_done { KeepsToStatus (world_of TellsNothing) (world_of TellsNothing) [] (status.BadWords 2) }
    ensures never_more_faults_than_the_rise { KeepsToStatus (world_of TellsNothing) (with_faults 1 (world_of TellsNothing)) (map_answered reply.Fault ∷ map_answered reply.Fault ∷ []) status.StoreFault → ⊥ }
    ensures never_after_memory { KeepsToStatus (world_of TellsNothing) (world_of TellsNothing) (map_answered reply.Memory ∷ second_entry ∷ []) status.Memory → ⊥ }
    ensures never_an_entry_by_wrong_words { KeepsToStatus (world_of TellsNothing) (world_of TellsNothing) (map_entry ∷ []) (status.BadWords 2) → ⊥ }
    ensures never_a_change_by_a_read_fault { KeepsToStatus (world_of TellsNothing) (world_of (TellsContents two_sites)) [] status.ReadFault → ⊥ }
{}

/// A status has its cause, comes where it has it, and is kept to.
pub fn status_has_cause()
    ensures refused { StatusHasCause nothing_wrong (world_of (TellsContents two_sites)) (world_of (TellsContents two_sites)) (list_refused ∷ []) status.Refused }
    ensures never_without_its_cause { StatusHasCause nothing_wrong (world_of (TellsContents two_sites)) (world_of (TellsContents two_sites)) (list_refused ∷ []) status.Done → ⊥ }
    ensures never_past_wrong_words { StatusHasCause wrong_words (world_of (TellsContents two_sites)) (world_of (TellsContents two_sites)) (list_refused ∷ []) status.Refused → ⊥ }
    ensures never_done_at_an_unknown_location { StatusHasCause nothing_wrong (world_of (TellsContents (with_global unknown_store))) (world_of (TellsContents (with_global unknown_store))) (list_refused ∷ []) (status.UnknownLocation site_c) → ⊥ }
    ensures never_an_entry_at_an_unknown_location { StatusHasCause nothing_wrong (world_of (TellsContents (with_global unknown_store))) (world_of (TellsContents (with_global unknown_store))) (list_refused ∷ []) status.Memory → ⊥ }
    ensures never_past_an_unknown_location { StatusHasCause nothing_wrong (world_of (TellsContents (with_global unknown_store))) (world_of (TellsContents (with_global unknown_store))) (list_refused ∷ []) status.Refused → ⊥ }
    ensures never_after_memory { StatusHasCause nothing_wrong (world_of TellsNothing) (world_of TellsNothing) (map_answered reply.Memory ∷ second_entry ∷ []) status.Memory → ⊥ }
{}

// ---- all five

/// A later trail goes on from an earlier one.
pub fn goes_on_from()
    ensures further { GoesOnFrom (trail_of (nothing_done ∷ [])) (trail_of (nothing_done ∷ Wrote ok_line ∷ [])) }
    ensures never_shorter { GoesOnFrom (trail_of (nothing_done ∷ [])) (trail_of []) → ⊥ }
    ensures never_otherwise { GoesOnFrom (trail_of (nothing_done ∷ [])) (trail_of (Wrote ok_line ∷ nothing_done ∷ [])) → ⊥ }
    ensures never_from_elsewhere { GoesOnFrom (trail_of []) (record list_trail { start = empty_image [] }) → ⊥ }
{}

/// The run of one command: a `list` that is refused, or a `map` that is done.
pub fn headline()
    ensures one_refused { Headline (EachReply false) nothing_wrong list_asked (trail_of []) (world_of (TellsTrail (trail_of []))) (world_of (TellsTrail list_trail)) (list_refused ∷ []) status.Refused }
    ensures one_map { Headline (EachReply false) nothing_wrong (asks 1 (make_map map_m) ∷ []) (trail_of []) (world_of (TellsTrail (trail_of []))) (world_of (TellsTrail map_trail)) (map_entry ∷ []) status.Done }
    ensures never_without_its_line { Headline (EachReply false) nothing_wrong (asks 1 (make_map map_m) ∷ []) (trail_of []) (world_of (TellsTrail (trail_of []))) (world_of (TellsTrail (trail_of (map_commit ∷ [])))) (map_entry ∷ []) status.Done → ⊥ }
    ensures never_untold { Headline (EachReply false) nothing_wrong list_asked (trail_of []) (world_of (TellsTrail (trail_of []))) (world_of TellsNothing) (list_refused ∷ []) status.Refused → ⊥ }
    ensures never_from_another_trail { Headline (EachReply false) nothing_wrong list_asked (trail_of (nothing_done ∷ [])) (world_of (TellsTrail (trail_of (nothing_done ∷ [])))) (world_of (TellsTrail list_trail)) (list_refused ∷ []) status.Refused → ⊥ }
    ensures never_unsound { Headline (EachReply false) nothing_wrong [] (trail_of (Reopened Global without_number ∷ [])) (world_of (TellsTrail (trail_of (Reopened Global without_number ∷ [])))) (world_of (TellsTrail (trail_of (Reopened Global without_number ∷ [])))) [] status.Done → ⊥ }
    ensures never_past_the_end { Headline (EachReply false) nothing_wrong (asks 1 (make_map map_m) ∷ []) (trail_of []) (world_of (TellsTrail (trail_of []))) (world_of (TellsTrail (trail_of []))) (map_entry ∷ []) status.WriteFault → ⊥ }
    ensures never_unwritten { Headline (EachReply false) nothing_wrong list_asked (trail_of []) (world_of (TellsTrail (trail_of []))) (world_of (TellsTrail (trail_of []))) (list_refused ∷ []) status.Refused → ⊥ }
    ensures never_of_another_script { Headline (EachReply false) nothing_wrong two_asked (trail_of []) (world_of (TellsTrail (trail_of []))) (world_of (TellsTrail list_trail)) (list_refused ∷ []) status.Refused → ⊥ }
    ensures never_as_done { Headline (EachReply false) nothing_wrong list_asked (trail_of []) (world_of (TellsTrail (trail_of []))) (world_of (TellsTrail list_trail)) (list_refused ∷ []) status.Done → ⊥ }
{}

/// Over a world that tells its contents alone: each entry follows from the state before it.
pub fn follows_to()
    ensures itself { FollowsTo [] empty_state [] empty_state }
    ensures a_map { FollowsTo [] empty_state (map_entry ∷ []) (with_map empty_state map_m) }
    ensures never_without_an_entry { FollowsTo [] empty_state [] (with_map empty_state map_m) → ⊥ }
    ensures never_without_a_change { FollowsTo [] empty_state (map_entry ∷ []) empty_state → ⊥ }
{}

/// From what the stores stood for to what they stand for.
pub fn legal_by_states()
    ensures one_refused { IsLegalByStates false two_sites two_sites list_asked (list_refused ∷ []) }
    ensures never_other_stores { IsLegalByStates false two_sites (empty_image []) [] [] → ⊥ }
    ensures never_waiting_for_nobody { IsLegalByStates false two_sites two_sites two_asked (at_moment (map_answered (reply.Pending 1)) 0 ∷ []) → ⊥ }
{}

/// The parts that speak of no trail.
pub fn headline_alone()
    ensures one_refused { HeadlineAlone nothing_wrong list_asked two_sites (world_of (TellsContents two_sites)) (world_of (TellsContents two_sites)) (list_refused ∷ []) status.Refused }
    ensures one_map { HeadlineAlone nothing_wrong (asks 1 (make_map map_m) ∷ []) two_sites (world_of (TellsContents two_sites)) (world_of (TellsContents image_m)) (map_entry ∷ []) status.Done }
    ensures never_without_the_map { HeadlineAlone nothing_wrong (asks 1 (make_map map_m) ∷ []) two_sites (world_of (TellsContents two_sites)) (world_of (TellsContents two_sites)) (map_entry ∷ []) status.Done → ⊥ }
    ensures never_unsound { HeadlineAlone nothing_wrong [] (with_global without_number) (world_of (TellsContents (with_global without_number))) (world_of (TellsContents (with_global without_number))) [] status.Done → ⊥ }
    ensures never_untold { HeadlineAlone nothing_wrong list_asked two_sites (world_of (TellsContents two_sites)) (world_of TellsNothing) (list_refused ∷ []) status.Refused → ⊥ }
    ensures never_of_another_script { HeadlineAlone nothing_wrong two_asked two_sites (world_of (TellsContents two_sites)) (world_of (TellsContents two_sites)) (list_refused ∷ []) status.Refused → ⊥ }
    ensures never_as_done { HeadlineAlone nothing_wrong list_asked two_sites (world_of (TellsContents two_sites)) (world_of (TellsContents two_sites)) (list_refused ∷ []) status.Done → ⊥ }
{}
