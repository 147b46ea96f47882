//! Examples of how much of a history's lines is written, at a moment, so far, and at the end.
ghost use Rattle.std.specs.Prelude.{[], ◌∷◌, ◌++◌, true, false, codes};
ghost use Rattle.cell_world.specs.Images.{Wrote};
ghost use Rattle.plain_model.specs.Timelines.{Happened, Entered};
ghost use Rattle.plain_model.specs.Written.{EachReply, Summary, WrittenAt, WrittenByMoments, AllWritten, LinesSoFar, WrittenSoFar, WasWritten};
ghost use Rattle.model_examples.specs.Values.{at_moment, map_entry, second_entry, trail_of};
ghost use Rattle.model_examples.specs.Runs.{nothing_done, silent_step, line, ok_line, one_summed};

/// Of the lines a front is written: at most those of the entries by then, and at least those of all but the last answered one.
pub fn lines_at_a_moment()
    ensures none_before { WrittenAt (EachReply false) (trail_of (nothing_done ∷ [])) 0 (map_entry ∷ []) 0 }
    ensures none_yet { WrittenAt (EachReply false) (trail_of (nothing_done ∷ [])) 0 (map_entry ∷ []) 1 }
    ensures a_front { WrittenAt (EachReply false) (trail_of (nothing_done ∷ Wrote (codes "o") ∷ [])) 0 (map_entry ∷ []) 2 }
    ensures the_line { WrittenAt (EachReply false) (trail_of (nothing_done ∷ Wrote ok_line ∷ [])) 0 (map_entry ∷ []) 2 }
    ensures the_line_before_the_next { WrittenAt (EachReply false) (trail_of (nothing_done ∷ Wrote ok_line ∷ [])) 0 (map_entry ∷ second_entry ∷ []) 2 }
    ensures none_at_a_step { WrittenAt (EachReply false) (trail_of (nothing_done ∷ nothing_done ∷ [])) 0 (map_entry ∷ silent_step ∷ []) 2 }
    ensures tagged { WrittenAt (EachReply true) (trail_of (nothing_done ∷ Wrote (line (codes "1 ok")) ∷ [])) 0 (map_entry ∷ []) 2 }
    ensures from_where_the_run_began { WrittenAt (EachReply false) (trail_of (Wrote (codes "x") ∷ [])) 1 (map_entry ∷ []) 1 }
    ensures never_before_the_entry { WrittenAt (EachReply false) (trail_of (Wrote ok_line ∷ [])) 0 (at_moment map_entry 2 ∷ []) 1 → ⊥ }
    ensures never_without_an_entry { WrittenAt (EachReply false) (trail_of (Wrote (codes "o") ∷ [])) 0 [] 1 → ⊥ }
    ensures never_more_than_the_line { WrittenAt (EachReply false) (trail_of (nothing_done ∷ Wrote (ok_line ++ ok_line) ∷ [])) 0 (map_entry ∷ []) 2 → ⊥ }
    ensures never_of_a_later_entry { WrittenAt (EachReply false) (trail_of (nothing_done ∷ Wrote (ok_line ++ codes "o") ∷ [])) 0 (map_entry ∷ at_moment second_entry 3 ∷ []) 2 → ⊥ }
    ensures never_other_bytes { WrittenAt (EachReply false) (trail_of (nothing_done ∷ Wrote (codes "no") ∷ [])) 0 (map_entry ∷ []) 2 → ⊥ }
    ensures never_less_before_the_next { WrittenAt (EachReply false) (trail_of (nothing_done ∷ Wrote (codes "ok") ∷ [])) 0 (map_entry ∷ second_entry ∷ []) 2 → ⊥ }
    ensures never_untagged { WrittenAt (EachReply true) (trail_of (nothing_done ∷ Wrote ok_line ∷ [])) 0 (map_entry ∷ []) 2 → ⊥ }
{}

/// Of the summary nothing is written until the last entry is made, and then a front.
pub fn summary_at_a_moment()
    ensures none_by_the_entry { WrittenAt Summary (trail_of (nothing_done ∷ [])) 0 (map_entry ∷ []) 1 }
    ensures none_after_it { WrittenAt Summary (trail_of (nothing_done ∷ nothing_done ∷ [])) 0 (map_entry ∷ []) 2 }
    ensures a_front { WrittenAt Summary (trail_of (nothing_done ∷ Wrote (codes "comm") ∷ [])) 0 (map_entry ∷ []) 2 }
    ensures the_lines { WrittenAt Summary (trail_of (nothing_done ∷ Wrote one_summed ∷ [])) 0 (map_entry ∷ []) 2 }
    ensures never_before_the_last_entry { WrittenAt Summary (trail_of (nothing_done ∷ Wrote (codes "c") ∷ [])) 0 (map_entry ∷ second_entry ∷ []) 2 → ⊥ }
    ensures never_a_reply { WrittenAt Summary (trail_of (nothing_done ∷ Wrote ok_line ∷ [])) 0 (map_entry ∷ []) 2 → ⊥ }
    ensures never_without_an_entry { WrittenAt Summary (trail_of (Wrote (codes "c") ∷ [])) 0 [] 1 → ⊥ }
{}

/// So it is at each moment of the run.
pub fn written_by_moments()
    ensures nothing_of_nothing { WrittenByMoments (EachReply false) (trail_of []) 0 [] }
    ensures never_too_early { WrittenByMoments (EachReply false) (trail_of (Wrote ok_line ∷ nothing_done ∷ [])) 0 (second_entry ∷ []) → ⊥ }
{}

/// At the end all of it is written.
pub fn all_written()
    ensures the_line { AllWritten (EachReply false) (trail_of (nothing_done ∷ Wrote ok_line ∷ [])) 0 (map_entry ∷ []) }
    ensures in_two_parts { AllWritten (EachReply false) (trail_of (nothing_done ∷ Wrote (codes "o") ∷ nothing_done ∷ Wrote (line (codes "k")) ∷ [])) 0 (map_entry ∷ []) }
    ensures summary { AllWritten Summary (trail_of (nothing_done ∷ Wrote one_summed ∷ [])) 0 (map_entry ∷ []) }
    ensures nothing_to_sum_up { AllWritten Summary (trail_of []) 0 [] }
    ensures never_a_front { AllWritten (EachReply false) (trail_of (nothing_done ∷ Wrote (codes "ok") ∷ [])) 0 (map_entry ∷ []) → ⊥ }
    ensures never_one_of_two { AllWritten (EachReply false) (trail_of (nothing_done ∷ Wrote ok_line ∷ [])) 0 (map_entry ∷ second_entry ∷ []) → ⊥ }
    ensures never_without_the_summary { AllWritten Summary (trail_of (nothing_done ∷ [])) 0 (map_entry ∷ []) → ⊥ }
    ensures never_what_was_there { AllWritten (EachReply false) (trail_of (Wrote ok_line ∷ nothing_done ∷ [])) 1 (map_entry ∷ []) → ⊥ }
{}

/// By the order in which all came: enough, and no more.
pub fn lines_so_far()
    ensures a_front { LinesSoFar false (Happened (Wrote (codes "o")) ∷ Entered map_entry ∷ []) }
    ensures the_line_before_the_next { LinesSoFar false (Entered second_entry ∷ Happened (Wrote ok_line) ∷ Entered map_entry ∷ []) }
    ensures never_more { LinesSoFar false (Entered map_entry ∷ Happened (Wrote (codes "ok no")) ∷ []) → ⊥ }
    ensures never_less_before_the_next { LinesSoFar false (Entered second_entry ∷ Happened (Wrote (codes "o")) ∷ Entered map_entry ∷ []) → ⊥ }
{}

/// And so it was before each thing: with a summary an entry finds nothing written.
pub fn was_written()
    ensures lines { WasWritten (EachReply false) (Entered second_entry ∷ Happened (Wrote ok_line) ∷ Entered map_entry ∷ []) }
    ensures summary { WasWritten Summary (Happened (Wrote one_summed) ∷ Entered map_entry ∷ []) }
    ensures summary_so_far { WrittenSoFar Summary (Happened (Wrote one_summed) ∷ Entered map_entry ∷ []) }
    ensures never_lines_before_the_entry { WasWritten (EachReply false) (Entered map_entry ∷ Happened nothing_done ∷ Happened (Wrote ok_line) ∷ []) → ⊥ }
    ensures never_a_summary_before_an_entry { WasWritten Summary (Entered second_entry ∷ Happened (Wrote (codes "c")) ∷ Entered map_entry ∷ []) → ⊥ }
    ensures never_a_reply_of_a_summary { WrittenSoFar Summary (Happened (Wrote ok_line) ∷ Entered map_entry ∷ []) → ⊥ }
{}
