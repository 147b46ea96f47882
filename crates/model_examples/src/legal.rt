//! Examples of legal histories: by each clause one that is accepted, and one that this clause refuses.
ghost use Rattle.std.specs.Prelude.{[], ◌∷◌, ◌++◌, Some, None, true, false};
ghost use Rattle.std.specs.FinSet as set;
ghost use Rattle.cell_world.specs.Stores.{empty_store};
ghost use Rattle.cell_world.specs.Images.{Global, Shard, Committed, Wrote, Reopened, global, with_store};
ghost use Rattle.cell_world.specs.Plain.{nobody};
ghost use Rattle.cell_world.specs.declared.cells.Cell.TheVariants as cell;
ghost use Rattle.cell_world.specs.declared.cells.Mark.TheVariants.{Old, Plain};
ghost use Rattle.cell_world.specs.declared.cells.Status.TheVariants.{Online};
ghost use Rattle.cell_world.specs.declared.changes.Edit.TheVariants.{Put, Delete};
ghost use Rattle.cell_world.specs.declared.operations.Phase.TheVariants.{Idle, Copying};
ghost use Rattle.cell_world.specs.declared.spans.High.TheVariants.{At};
ghost use Rattle.plain_model.specs.declared.commands.Command.TheVariants as command;
ghost use Rattle.plain_model.specs.declared.replies.Refusal.TheVariants as refused;
ghost use Rattle.plain_model.specs.declared.replies.Reply.TheVariants as reply;
ghost use Rattle.plain_model.specs.ByMoments.{LegalByMoments};
ghost use Rattle.std.specs.FinMap as fin;
ghost use Rattle.cell_world.specs.declared.cells.CellKey.TheVariants as at;
ghost use Rattle.cell_world.specs.declared.cells.Away.TheVariants.{Detached};
ghost use Rattle.plain_model.specs.Refusing.{AcceptsJob};
ghost use Rattle.plain_model.specs.OnTrail.{NoneOwed};
ghost use Rattle.plain_model.specs.Legal.{Legal, Unfolds, IsAtRest, NamesItsOwn, AreNamed, KeepsCounter, KeepsPromises, MayHappen, IsPlanned, IsPlannedIn, Going, AllGoing};
ghost use Rattle.plain_model.specs.Timelines.{Happened, Entered};
ghost use Rattle.plain_model.specs.Worked.{small_key, small_range, local_row_over};
ghost use Rattle.model_examples.specs.Values.{add_0_10, add_op, after_move, after_split, all_moved_state, answered, at_moment, closing, copying_image, copying_state, copying_trail, detached_store, finished_state, fresh_image, fresh_state, local_cells, make_map, map_commit, map_entry, map_trail, move_commit, move_op, naming, nothing_going, silent, split_op, state_with_jobs, trail_of, tried, two_sites, with_global};
ghost use Rattle.world_examples.specs.Examples.{away_of, job_at, map_m, maps_m, site_a};
ghost use Rattle.model_examples.specs.Runs.{silent_step, named_step, suspect_image, suspect_trail, cut_commit, clearing};

/// Legal histories: an empty one, a `map` with its commit and its line, and two refused commands.
pub fn legal_histories()
    ensures empty { LegalByMoments (trail_of []) 0 nothing_going [] }
    ensures one_map { LegalByMoments map_trail 0 nothing_going (map_entry ∷ []) }
    ensures two_refusals { LegalByMoments (trail_of (Wrote [] ∷ [])) 0 nothing_going (closing 0 ∷ closing 1 ∷ []) }
    ensures later_start { LegalByMoments (trail_of (Wrote [] ∷ [])) 1 nothing_going (closing 1 ∷ []) }
{}

/// A run begins without connections.
pub fn connections_at_first()
    ensures none { LegalByMoments (trail_of []) 0 nothing_going (closing 0 ∷ []) }
    ensures never_one { LegalByMoments (trail_of []) 0 nothing_going (at_moment (answered 1 (command.Close 1) reply.Ok) 0 ∷ []) → ⊥ }
{}

/// Moments don't fall, aren't below the start, and aren't past the end.
pub fn moments_in_order()
    ensures never_falling { LegalByMoments (trail_of (Wrote [] ∷ [])) 0 nothing_going (closing 1 ∷ closing 0 ∷ []) → ⊥ }
    ensures never_below_the_start { LegalByMoments (trail_of (Wrote [] ∷ [])) 1 nothing_going (closing 0 ∷ []) → ⊥ }
    ensures never_past_the_end { LegalByMoments (trail_of []) 0 nothing_going (closing 1 ∷ []) → ⊥ }
{}

/// Each entry follows from the state before it to its own.
pub fn entries_follow()
    ensures never_without_a_commit { LegalByMoments (trail_of []) 0 nothing_going (at_moment map_entry 0 ∷ []) → ⊥ }
    ensures never_before_its_commit { LegalByMoments map_trail 0 nothing_going (at_moment map_entry 0 ∷ []) → ⊥ }
    ensures never_pending_with_nothing_live { LegalByMoments (trail_of []) 0 nothing_going (at_moment (answered 1 (make_map map_m) (reply.Pending 1)) 0 ∷ []) → ⊥ }
{}

/// Between entries, and after the last one, the stores stand for the state of the latest entry.
pub fn stores_rest()
    ensures never_without_an_entry { LegalByMoments (trail_of (map_commit ∷ [])) 0 nothing_going [] → ⊥ }
    ensures never_after_the_last { LegalByMoments (trail_of (map_commit ∷ [])) 0 nothing_going (closing 0 ∷ []) → ⊥ }
{}

/// At the end they stand exactly for it, and not only near it: a run may leave the local rows of a suspect site cut otherwise, but then an entry comes after that.
pub fn stores_stand_at_the_end()
    ensures with_its_entry { LegalByMoments (suspect_trail (cut_commit ∷ [])) 0 nothing_going (clearing 1 ∷ []) }
    ensures with_its_entry_in_order { Legal 0 (suspect_trail (cut_commit ∷ [])) nothing_going (clearing 1 ∷ []) }
    ensures near_without_an_entry { Unfolds 0 suspect_image (Happened cut_commit ∷ []) nobody × IsAtRest suspect_image (Happened cut_commit ∷ []) }
    ensures never_without_an_entry { LegalByMoments (suspect_trail (cut_commit ∷ [])) 0 nothing_going [] → ⊥ }
    ensures never_without_an_entry_in_order { Legal 0 (suspect_trail (cut_commit ∷ [])) nothing_going [] → ⊥ }
    ensures never_after_the_last { LegalByMoments (suspect_trail (cut_commit ∷ [])) 0 nothing_going (clearing 0 ∷ []) → ⊥ }
    ensures never_after_the_last_in_order { Legal 0 (suspect_trail (cut_commit ∷ [])) nothing_going (clearing 0 ∷ []) → ⊥ }
{}

/// What happens is what may happen.
pub fn trails_of_legal_histories()
    ensures never_a_counter_without_a_log { LegalByMoments (trail_of (Committed Global (Put (cell.Counter (record { operation = 2; job = 1 })) ∷ []) true ∷ [])) 0 nothing_going [] → ⊥ }
    ensures never_the_global_store_again { LegalByMoments (trail_of (Reopened Global empty_store ∷ [])) 0 nothing_going [] → ⊥ }
{}

/// What entries say of later ones is so.
pub fn promises_of_legal_histories()
    ensures never_broken { LegalByMoments (trail_of []) 0 nothing_going (at_moment (answered 1 add_0_10 (reply.Pending 1)) 0 ∷ []) → ⊥ }
{}

// ---- what may happen

/// The operation number of the counter changes only with one log cell, which has the number that stood.
pub fn counter_is_kept()
    ensures nothing { KeepsCounter 1 1 [] }
    ensures one_log { KeepsCounter 1 2 (add_op 1 0 10 ∷ []) }
    ensures never_without_a_log { KeepsCounter 1 2 [] → ⊥ }
    ensures never_another_number { KeepsCounter 1 2 (add_op 2 0 10 ∷ []) → ⊥ }
    ensures never_by_two { KeepsCounter 1 3 (add_op 1 0 10 ∷ []) → ⊥ }
    ensures never_as_it_was { KeepsCounter 1 1 (add_op 1 0 10 ∷ []) → ⊥ }
    ensures never_two_logs { KeepsCounter 1 3 (add_op 1 0 10 ∷ add_op 2 10 20 ∷ []) → ⊥ }
{}

/// Commits at the global store.
pub fn global_commits()
    ensures a_map { MayHappen two_sites [] map_commit }
    ensures one_log { MayHappen two_sites [] (tried (add_op 1 0 10) true) }
    ensures one_log_not_made { MayHappen two_sites [] (tried (add_op 1 0 10) false) }
    ensures never_another_number_not_made { MayHappen two_sites [] (tried (add_op 2 0 10) false) → ⊥ }
    ensures never_another_number { MayHappen two_sites [] (tried (add_op 2 0 10) true) → ⊥ }
    ensures never_a_log_alone { MayHappen two_sites [] (Committed Global (Put (cell.Log (add_op 1 0 10)) ∷ []) true) → ⊥ }
    ensures never_two_logs { MayHappen two_sites [] (Committed Global (Put (cell.Log (add_op 1 0 10)) ∷ Put (cell.Log (add_op 2 10 20)) ∷ Put (cell.Counter (record { operation = 3; job = 1 })) ∷ []) true) → ⊥ }
    ensures never_two_logs_not_made { MayHappen two_sites [] (Committed Global (Put (cell.Log (add_op 1 0 10)) ∷ Put (cell.Log (add_op 2 10 20)) ∷ []) false) → ⊥ }
{}

/// Commits at a shard, reopenings and writes.
pub fn shard_commits()
    ensures a_local_row { MayHappen two_sites [] (Committed (Shard site_a) (Put (cell.Local (local_row_over (small_range 0 10) Online)) ∷ []) true) }
    ensures never_a_log { MayHappen two_sites [] (Committed (Shard site_a) (Put (cell.Log (add_op 1 0 10)) ∷ []) true) → ⊥ }
    ensures never_a_log_not_made { MayHappen two_sites [] (Committed (Shard site_a) (Put (cell.Log (add_op 1 0 10)) ∷ []) false) → ⊥ }
    ensures written { MayHappen two_sites [] (Wrote (1 ∷ [])) }
    ensures reopened { MayHappen two_sites [] (Reopened (Shard site_a) empty_store) }
    ensures never_the_global_store_reopened { MayHappen two_sites [] (Reopened Global empty_store) → ⊥ }
{}

/// A commit at a detached site comes after a reopening, and leaves what `attach` would keep.
pub fn commits_at_a_detached_site()
    ensures after_a_reopening { MayHappen (with_global detached_store) (Happened (Reopened (Shard site_a) empty_store) ∷ []) (Committed (Shard site_a) [] true) }
    ensures after_a_reopening_not_made { MayHappen (with_global detached_store) (Happened (Reopened (Shard site_a) empty_store) ∷ []) (Committed (Shard site_a) [] false) }
    ensures a_row_that_is_not_kept { MayHappen (with_global (record detached_store { maps = maps_m; shards = set.insert set.empty (map_m, site_a) })) (Happened (Reopened (Shard site_a) (local_cells [])) ∷ [])
        (Committed (Shard site_a) (Put (cell.Local (record (local_row_over (small_range 0 10) Online) { mark = Old 1 })) ∷ []) true) }
    ensures never_without_a_reopening { MayHappen (with_global detached_store) [] (Committed (Shard site_a) [] true) → ⊥ }
    ensures never_without_a_reopening_not_made { MayHappen (with_global detached_store) [] (Committed (Shard site_a) [] false) → ⊥ }
    ensures never_after_an_entry { MayHappen (with_global detached_store) (Entered (closing 1) ∷ Happened (Reopened (Shard site_a) empty_store) ∷ []) (Committed (Shard site_a) [] true) → ⊥ }
    ensures never_a_row_more { MayHappen (with_global (record detached_store { maps = maps_m; shards = set.insert set.empty (map_m, site_a) })) (Happened (Reopened (Shard site_a) (local_cells [])) ∷ [])
        (Committed (Shard site_a) (Put (cell.Local (local_row_over (small_range 0 10) Online)) ∷ []) true) → ⊥ }
{}

// ---- steps of jobs

/// An operation is planned where it is the row of its job's table.
pub fn planned_operations()
    ensures the_move { IsPlannedIn copying_image 1 move_op }
    ensures never_of_another_job { IsPlannedIn copying_image 2 move_op → ⊥ }
    ensures never_another_step { IsPlannedIn fresh_image 1 move_op → ⊥ }
    ensures never_to_another_end { IsPlannedIn fresh_image 1 split_op → ⊥ }
    ensures never_from_a_detached_source { IsPlannedIn (with_store copying_image Global (record (global copying_image) { away = away_of ((site_a, Detached) ∷ []) })) 1 move_op → ⊥ }
{}

/// A step of a job that changes mappings or jobs is the finish, or was made by an operation that was planned when it was logged.
pub fn planned_steps()
    ensures of_no_job { IsPlanned two_sites [] copying_state silent_step after_move None }
    ensures the_finish { IsPlanned two_sites [] all_moved_state silent_step finished_state (Some (job_at 10 Idle)) }
    ensures no_change { IsPlanned two_sites [] copying_state silent_step copying_state (Some (job_at 0 (Copying (At (small_key 5))))) }
    ensures made { IsPlanned copying_image (Happened (Committed Global [] true) ∷ Happened (tried move_op true) ∷ []) copying_state named_step after_move (Some (job_at 0 (Copying (At (small_key 5))))) }
    ensures never_made_by_nothing { IsPlanned copying_image [] copying_state silent_step after_move (Some (job_at 0 (Copying (At (small_key 5))))) → ⊥ }
    ensures never_not_logged { IsPlanned copying_image (Happened (Committed Global [] true) ∷ Happened (tried move_op false) ∷ []) copying_state named_step after_move (Some (job_at 0 (Copying (At (small_key 5))))) → ⊥ }
    ensures never_tried_only { IsPlanned (with_store copying_image Global (record (global copying_image) { log = fin.insert fin.empty 1 move_op })) (Happened (Committed Global [] true) ∷ Happened (tried move_op false) ∷ [])
        copying_state named_step after_move (Some (job_at 0 (Copying (At (small_key 5))))) → ⊥ }
    ensures never_to_another_end { IsPlanned fresh_image (Happened (Committed Global [] true) ∷ Happened (tried split_op true) ∷ []) fresh_state named_step after_split (Some (job_at 0 Idle)) → ⊥ }
{}

/// In a whole run: the move of the copied batch is legal where its log cell was put in the run, and not where it wasn't.
pub fn planned_in_a_run()
    ensures the_move { LegalByMoments (copying_trail (tried move_op true ∷ move_commit ∷ [])) 0 nothing_going (named_step ∷ []) }
    ensures never_unnamed { LegalByMoments (copying_trail (tried move_op true ∷ move_commit ∷ [])) 0 nothing_going (silent_step ∷ []) → ⊥ }
    ensures never_without_its_log { LegalByMoments (copying_trail (move_commit ∷ [])) 0 nothing_going (silent 1 (command.Step 1) ∷ []) → ⊥ }
{}

// ---- an entry names its own operation

/// An entry names no operation, or one that was tried for its command since its session's previous entry, made or not.
pub fn entries_name_their_own()
    ensures none { NamesItsOwn two_sites [] (state_with_jobs [] []) (answered 1 add_0_10 reply.Ok) }
    ensures its_own { NamesItsOwn two_sites (Happened (tried (add_op 1 0 10) true) ∷ []) (state_with_jobs [] []) (naming (answered 1 add_0_10 reply.Ok) 1) }
    ensures its_own_not_made { NamesItsOwn two_sites (Happened (tried (add_op 1 0 10) false) ∷ []) (state_with_jobs [] []) (naming (answered 1 add_0_10 reply.Fault) 1) }
    ensures after_another_session { NamesItsOwn two_sites (Entered (answered 2 (make_map map_m) reply.Fault) ∷ Happened (tried (add_op 1 0 10) true) ∷ []) (state_with_jobs [] []) (naming (answered 1 add_0_10 reply.Ok) 1) }
    ensures of_a_job { NamesItsOwn copying_image (Happened (tried move_op false) ∷ []) copying_state (naming (answered 1 (command.Step 1) reply.Fault) 1) }
    ensures never_untried { NamesItsOwn two_sites [] (state_with_jobs [] []) (naming (answered 1 add_0_10 reply.Ok) 1) → ⊥ }
    ensures never_another_number { NamesItsOwn two_sites (Happened (tried (add_op 1 0 10) true) ∷ []) (state_with_jobs [] []) (naming (answered 1 add_0_10 reply.Ok) 2) → ⊥ }
    ensures never_before_its_previous_entry { NamesItsOwn two_sites (Entered (answered 1 (make_map map_m) reply.Fault) ∷ Happened (tried (add_op 1 0 10) true) ∷ []) (state_with_jobs [] []) (naming (answered 1 add_0_10 reply.Ok) 1) → ⊥ }
    ensures never_anothers { NamesItsOwn two_sites (Happened (tried (add_op 1 5 15) true) ∷ []) (state_with_jobs [] []) (naming (answered 1 add_0_10 reply.Ok) 1) → ⊥ }
    ensures never_by_a_command_without { NamesItsOwn two_sites (Happened (tried (add_op 1 0 10) true) ∷ []) (state_with_jobs [] []) (naming (answered 1 (make_map map_m) reply.Ok) 1) → ⊥ }
{}

/// No entry is owed where each open number stands in the log. A made commit that takes the log cell of a live operation away, and a try that wasn't made, owe an entry that names it, at once.
pub fn entries_are_owed()
    ensures while_it_is_logged { NoneOwed two_sites (Happened (tried (add_op 1 0 10) true) ∷ []) }
    ensures named_at_once { NoneOwed two_sites (Entered (naming (answered 1 add_0_10 reply.Fault) 1) ∷ Happened (tried (add_op 1 0 10) false) ∷ []) }
    ensures of_an_earlier_run { NoneOwed (with_global (record empty_store { log = fin.insert fin.empty 1 (add_op 1 0 10) })) (Happened (Committed Global (Delete (at.Log 1) ∷ []) true) ∷ []) }
    ensures of_an_abandoned_one { NoneOwed two_sites (Happened (Committed Global (Delete (at.Log 1) ∷ []) true) ∷ Entered (naming (answered 1 add_0_10 reply.Fault) 1) ∷ Happened (tried (add_op 1 0 10) true) ∷ []) }
    ensures never_of_a_live_one { NoneOwed two_sites (Happened (Committed Global (Delete (at.Log 1) ∷ []) true) ∷ Happened (tried (add_op 1 0 10) true) ∷ []) → ⊥ }
    ensures never_not_made { NoneOwed two_sites (Happened (tried (add_op 1 0 10) false) ∷ []) → ⊥ }
    ensures never_unnamed { NoneOwed two_sites (Entered (answered 1 add_0_10 reply.Fault) ∷ Happened (tried (add_op 1 0 10) false) ∷ []) → ⊥ }
    ensures never_by_another_number { NoneOwed two_sites (Entered (naming (answered 1 add_0_10 reply.Fault) 2) ∷ Happened (tried (add_op 1 0 10) false) ∷ []) → ⊥ }
{}

/// Each operation that was tried is named by the next entry of some session, or some session has it going at the end.
pub fn tried_operations_are_named()
    ensures next { AreNamed nothing_going (Entered (naming (answered 1 add_0_10 reply.Fault) 1) ∷ Happened (tried (add_op 1 0 10) true) ∷ []) [] }
    ensures after_others { AreNamed nothing_going (Entered (naming (answered 1 add_0_10 reply.Fault) 1) ∷ Entered (answered 2 (make_map map_m) reply.Fault) ∷ Happened (tried (add_op 1 0 10) true) ∷ []) [] }
    ensures going { AreNamed (λ session. Some (record { command = add_0_10; operation = 1 })) (Happened (tried (add_op 1 0 10) true) ∷ []) [] }
    ensures never_by_nobody { AreNamed nothing_going (Happened (tried (add_op 1 0 10) true) ∷ []) [] → ⊥ }
    ensures never_only_later { AreNamed nothing_going (Entered (naming (answered 1 add_0_10 reply.Fault) 1) ∷ Entered (answered 1 (make_map map_m) reply.Fault) ∷ Happened (tried (add_op 1 0 10) true) ∷ []) [] → ⊥ }
{}

/// A step of a job is accepted where its source and its target are attached: where its operation is tried, and at the finish.
pub fn accepted_steps()
    ensures attached { AcceptsJob all_moved_state 1 }
    ensures never_of_another_job { AcceptsJob all_moved_state 2 → ⊥ }
    ensures never_from_a_detached_source { AcceptsJob (record all_moved_state { away = away_of ((site_a, Detached) ∷ []) }) 1 → ⊥ }
    ensures never_a_finish_with_a_detached_source { IsPlanned two_sites [] (record all_moved_state { away = away_of ((site_a, Detached) ∷ []) }) silent_step (record finished_state { away = away_of ((site_a, Detached) ∷ []) }) (Some (job_at 10 Idle)) → ⊥ }
{}

// ---- promises

/// After `pending P` another session's next entry names P, or it has P going.
pub fn pending_promises()
    ensures named_next { KeepsPromises nothing_going (answered 1 add_0_10 (reply.Pending 1) ∷ naming (answered 2 add_0_10 reply.Ok) 1 ∷ []) }
    ensures going { KeepsPromises (λ session. Some (record { command = add_0_10; operation = 1 })) (answered 1 add_0_10 (reply.Pending 1) ∷ []) }
    ensures never_named_by_nobody { KeepsPromises nothing_going (answered 1 add_0_10 (reply.Pending 1) ∷ []) → ⊥ }
    ensures never_another_number { KeepsPromises nothing_going (answered 1 add_0_10 (reply.Pending 1) ∷ naming (answered 2 add_0_10 reply.Ok) 2 ∷ []) → ⊥ }
    ensures never_by_itself { KeepsPromises nothing_going (answered 1 add_0_10 (reply.Pending 1) ∷ naming (answered 1 add_0_10 reply.Ok) 1 ∷ []) → ⊥ }
{}

/// After `job-running` another session's next answer is to the job, or it has the job going.
pub fn job_running_promises()
    ensures answered_next { KeepsPromises nothing_going (answered 1 (command.Step 1) (reply.Refused refused.JobRunning) ∷ answered 2 (command.Run 1) (reply.Done 1) ∷ []) }
    ensures going { KeepsPromises (λ session. Some (record { command = command.Run 1; operation = 0 })) (answered 1 (command.Step 1) (reply.Refused refused.JobRunning) ∷ []) }
    ensures never_with_nobody { KeepsPromises nothing_going (answered 1 (command.Step 1) (reply.Refused refused.JobRunning) ∷ []) → ⊥ }
    ensures never_at_another_job { KeepsPromises nothing_going (answered 1 (command.Step 1) (reply.Refused refused.JobRunning) ∷ answered 2 (command.Run 2) (reply.Done 2) ∷ []) → ⊥ }
    ensures never_both { KeepsPromises nothing_going (answered 1 (command.Step 1) (reply.Refused refused.JobRunning) ∷ answered 2 (command.Step 1) (reply.Refused refused.JobRunning) ∷ []) → ⊥ }
    ensures never_by_itself { KeepsPromises nothing_going (answered 1 (command.Step 1) (reply.Refused refused.JobRunning) ∷ answered 1 (command.Step 1) (reply.Done 1) ∷ []) → ⊥ }
{}
