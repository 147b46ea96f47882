//! Examples of which entries follow a state, by the reply.
ghost use Rattle.std.specs.Prelude.{◌≡◌, ◌≤◌, [], ◌∷◌, Some, None, true, false, codes};
ghost use Rattle.std.specs.FinMap as fin;
ghost use Rattle.cell_world.specs.Plain.{PlainState, holds_nothing};
ghost use Rattle.cell_world.specs.declared.cells.Away.TheVariants.{Detached, Suspect};
ghost use Rattle.cell_world.specs.declared.cells.KeyType.TheVariants as type;
ghost use Rattle.cell_world.specs.declared.cells.Status.TheVariants.{Online, Offline};
ghost use Rattle.cell_world.specs.declared.operations.Extra.TheVariants as extra;
ghost use Rattle.cell_world.specs.declared.operations.Phase.TheVariants.{Idle, Moved};
ghost use Rattle.cell_world.specs.declared.spans.High.TheVariants.{At};
ghost use Rattle.plain_model.specs.declared.commands.Command.TheVariants as command;
ghost use Rattle.plain_model.specs.declared.replies.Reply.TheVariants as reply;
ghost use Rattle.plain_model.specs.declared.replies.Refusal.TheVariants as refused;
ghost use Rattle.plain_model.specs.Follows.{Follows};
ghost use Rattle.plain_model.specs.Steps.{plain_step, attach, detach};
ghost use Rattle.plain_model.specs.Worked.{small_key};
ghost use Rattle.model_examples.specs.Values.{away_state, holding, one_row, connected_state, make_map, answered, silent, made, empty_state, with_map, fresh_state, copying_state, after_move, after_split, fresh_connected, moved_state, between_state, merging_state, all_moved_state, finished_state};
ghost use Rattle.world_examples.specs.Examples.{map_m, map_n, away_of, site_a, site_b, job_at, job_piece};

/// An answer or a refusal is the plain step's, and so is the state.
pub fn plain_answers()
    ensures done { Follows [] empty_state (answered 1 (make_map map_m) reply.Ok) (with_map empty_state map_m) (Some reply.Ok) }
    ensures refused { Follows [] (with_map empty_state map_m) (answered 1 (make_map map_m) (reply.Refused refused.MapExists)) (with_map empty_state map_m) (Some (reply.Refused refused.MapExists)) }
    ensures never_without_a_change { Follows [] empty_state (answered 1 (make_map map_m) reply.Ok) empty_state (Some reply.Ok) → ⊥ }
    ensures never_with_another_change { Follows [] empty_state (answered 1 (make_map map_m) reply.Ok) (with_map empty_state map_n) (Some reply.Ok) → ⊥ }
    ensures never_where_it_is_refused { Follows [] (with_map empty_state map_m) (answered 1 (make_map map_m) reply.Ok) (with_map empty_state map_m) (Some reply.Ok) → ⊥ }
    ensures never_refused_where_it_is_done { Follows [] empty_state (answered 1 (make_map map_m) (reply.Refused refused.MapExists)) empty_state (Some (reply.Refused refused.MapExists)) → ⊥ }
    ensures never_refused_otherwise { Follows [] (with_map empty_state map_m) (answered 1 (make_map map_m) (reply.Refused refused.NoMap)) (with_map empty_state map_m) (Some (reply.Refused refused.NoMap)) → ⊥ }
    ensures never_refused_with_a_change { Follows [] (with_map empty_state map_m) (answered 1 (make_map map_m) (reply.Refused refused.MapExists)) empty_state (Some (reply.Refused refused.MapExists)) → ⊥ }
{}

/// An accepted `detach` or `attach` changes the state of its site. (What the site holds then is said of the trail.)
pub fn recoveries()
    ensures detached { Follows [] empty_state (answered 1 (command.Detach site_a) reply.Ok) (detach empty_state site_a one_row) (Some reply.Ok) }
    ensures attached { Follows [] (away_state Detached) (answered 1 (command.Attach site_a) reply.Ok) (attach (away_state Detached) site_a one_row) (Some reply.Ok) }
    ensures never_still_attached { Follows [] empty_state (answered 1 (command.Detach site_a) reply.Ok) empty_state (Some reply.Ok) → ⊥ }
    ensures never_still_detached { Follows [] (away_state Detached) (answered 1 (command.Attach site_a) reply.Ok) (away_state Detached) (Some reply.Ok) → ⊥ }
    ensures never_what_is_attached { Follows [] empty_state (answered 1 (command.Attach site_a) reply.Ok) (attach empty_state site_a one_row) (Some reply.Ok) → ⊥ }
{}

/// `job-running` needs that the job stands, and changes nothing.
pub fn job_running()
    ensures at_a_step { Follows [] fresh_state (answered 2 (command.Step 1) (reply.Refused refused.JobRunning)) fresh_state (Some (reply.Refused refused.JobRunning)) }
    ensures at_a_run { Follows [] fresh_state (answered 2 (command.Run 1) (reply.Refused refused.JobRunning)) fresh_state (Some (reply.Refused refused.JobRunning)) }
    ensures never_without_the_job { Follows [] empty_state (answered 2 (command.Step 1) (reply.Refused refused.JobRunning)) empty_state (Some (reply.Refused refused.JobRunning)) → ⊥ }
    ensures never_of_another_command { Follows [] fresh_state (answered 2 (make_map map_n) (reply.Refused refused.JobRunning)) fresh_state (Some (reply.Refused refused.JobRunning)) → ⊥ }
    ensures never_with_a_change { Follows [] fresh_state (answered 2 (command.Step 1) (reply.Refused refused.JobRunning)) (with_map fresh_state map_n) (Some (reply.Refused refused.JobRunning)) → ⊥ }
{}

/// `full` where no operation number is left comes to a command that would take one, and to the finish of a job it doesn't.
pub fn full_of_numbers()
    ensures sixty_four_maps { (s : PlainState) → fin.get s.maps map_n ≡ None → 64 ≤ fin.len s.maps → Follows [] s (answered 1 (make_map map_n) (reply.Refused refused.Full)) s (Some (reply.Refused refused.Full)) }
    ensures at_a_step { Follows [] fresh_state (answered 1 (command.Step 1) (reply.Refused refused.Full)) fresh_state (Some (reply.Refused refused.Full)) }
    ensures never_at_the_finish { Follows [] all_moved_state (answered 1 (command.Step 1) (reply.Refused refused.Full)) all_moved_state (Some (reply.Refused refused.Full)) → ⊥ }
    ensures never_of_a_command_without_a_number { Follows [] empty_state (answered 1 (make_map map_m) (reply.Refused refused.Full)) empty_state (Some (reply.Refused refused.Full)) → ⊥ }
    ensures never_where_another_refusal_holds { Follows [] empty_state (answered 1 (command.Step 1) (reply.Refused refused.Full)) empty_state (Some (reply.Refused refused.Full)) → ⊥ }
    ensures never_with_a_change { Follows [] fresh_state (answered 1 (command.Step 1) (reply.Refused refused.Full)) (with_map fresh_state map_n) (Some (reply.Refused refused.Full)) → ⊥ }
{}

/// An entry without a reply is the next step of a job.
pub fn steps_of_jobs()
    ensures move_there { Follows [] copying_state (silent 1 (command.Step 1)) after_move None }
    ensures split_at_another_end { Follows [] fresh_state (silent 1 (command.Step 1)) after_split None }
    ensures never_without_a_change { Follows [] copying_state (silent 1 (command.Step 1)) copying_state None → ⊥ }
    ensures never_two_steps_at_once { Follows [] copying_state (silent 1 (command.Step 1)) between_state None → ⊥ }
    ensures never_a_finish_from_a_detached_source { Follows [] (record all_moved_state { away = away_of ((site_a, Detached) ∷ []) }) (silent 1 (command.Step 1)) (record finished_state { away = away_of ((site_a, Detached) ∷ []) }) None → ⊥ }
    ensures never_of_a_job_that_is_gone { Follows [] finished_state (silent 1 (command.Step 1)) finished_state None → ⊥ }
    ensures never_of_another_command { Follows [] empty_state (silent 1 (make_map map_m)) (with_map empty_state map_m) None → ⊥ }
{}

/// `cursor KEY` answers a `step` whose batch was just moved.
pub fn cursors()
    ensures after_the_online { Follows (made (silent 1 (command.Step 1)) moved_state ∷ []) between_state (answered 1 (command.Step 1) (reply.Cursor type.Int (small_key 5))) between_state (Some (reply.Cursor type.Int (small_key 5))) }
    ensures never_in_another_type { Follows (made (silent 1 (command.Step 1)) moved_state ∷ []) between_state (answered 1 (command.Step 1) (reply.Cursor type.Long (small_key 5))) between_state (Some (reply.Cursor type.Long (small_key 5))) → ⊥ }
    ensures never_another_key { Follows (made (silent 1 (command.Step 1)) moved_state ∷ []) between_state (answered 1 (command.Step 1) (reply.Cursor type.Int (small_key 6))) between_state (Some (reply.Cursor type.Int (small_key 6))) → ⊥ }
    ensures never_after_two_onlines { Follows (made (silent 1 (command.Step 1)) moved_state ∷ made (silent 1 (command.Step 1)) moved_state ∷ []) between_state (answered 1 (command.Step 1) (reply.Cursor type.Int (small_key 5))) between_state (Some (reply.Cursor type.Int (small_key 5))) → ⊥ }
    ensures never_after_nothing { Follows [] between_state (answered 1 (command.Step 1) (reply.Cursor type.Int (small_key 5))) between_state (Some (reply.Cursor type.Int (small_key 5))) → ⊥ }
    ensures never_after_another_session { Follows (made (silent 2 (command.Step 1)) moved_state ∷ []) between_state (answered 1 (command.Step 1) (reply.Cursor type.Int (small_key 5))) between_state (Some (reply.Cursor type.Int (small_key 5))) → ⊥ }
    ensures never_after_another_step { Follows (made (silent 1 (command.Step 1)) copying_state ∷ []) between_state (answered 1 (command.Step 1) (reply.Cursor type.Int (small_key 5))) between_state (Some (reply.Cursor type.Int (small_key 5))) → ⊥ }
    ensures never_to_a_run { Follows (made (silent 1 (command.Run 1)) moved_state ∷ []) between_state (answered 1 (command.Run 1) (reply.Cursor type.Int (small_key 5))) between_state (Some (reply.Cursor type.Int (small_key 5))) → ⊥ }
    ensures never_where_a_merge_is_due { Follows (made (silent 1 (command.Step 1)) moved_state ∷ []) merging_state (answered 1 (command.Step 1) (reply.Cursor type.Int (small_key 5))) merging_state (Some (reply.Cursor type.Int (small_key 5))) → ⊥ }
    ensures never_at_the_end { Follows (made (silent 1 (command.Step 1)) moved_state ∷ []) all_moved_state (answered 1 (command.Step 1) (reply.Cursor type.Int (small_key 10))) all_moved_state (Some (reply.Cursor type.Int (small_key 10))) → ⊥ }
    ensures never_in_a_batch { Follows (made (silent 1 (command.Step 1)) moved_state ∷ []) copying_state (answered 1 (command.Step 1) (reply.Cursor type.Int (small_key 0))) copying_state (Some (reply.Cursor type.Int (small_key 0))) → ⊥ }
    ensures never_with_a_change { Follows (made (silent 1 (command.Step 1)) moved_state ∷ []) between_state (answered 1 (command.Step 1) (reply.Cursor type.Int (small_key 5))) (with_map between_state map_n) (Some (reply.Cursor type.Int (small_key 5))) → ⊥ }
{}

/// `done J` comes right after the finish of the job.
pub fn jobs_done()
    ensures after_the_finish { Follows (made (silent 1 (command.Step 1)) all_moved_state ∷ made (silent 1 (command.Step 1)) moved_state ∷ []) finished_state (answered 1 (command.Step 1) (reply.Done 1)) finished_state (Some (reply.Done 1)) }
    ensures run_of_two_batches { Follows (made (silent 1 (command.Run 1)) all_moved_state ∷ made (silent 1 (command.Run 1)) moved_state ∷ made (silent 1 (command.Run 1)) moved_state ∷ []) finished_state (answered 1 (command.Run 1) (reply.Done 1)) finished_state (Some (reply.Done 1)) }
    ensures never_step_of_two_batches { Follows (made (silent 1 (command.Step 1)) all_moved_state ∷ made (silent 1 (command.Step 1)) moved_state ∷ made (silent 1 (command.Step 1)) moved_state ∷ []) finished_state (answered 1 (command.Step 1) (reply.Done 1)) finished_state (Some (reply.Done 1)) → ⊥ }
    ensures never_where_the_job_stands { Follows (made (silent 1 (command.Step 1)) moved_state ∷ []) between_state (answered 1 (command.Step 1) (reply.Done 1)) between_state (Some (reply.Done 1)) → ⊥ }
    ensures never_after_nothing { Follows [] finished_state (answered 1 (command.Step 1) (reply.Done 1)) finished_state (Some (reply.Done 1)) → ⊥ }
    ensures never_of_another_number { Follows (made (silent 1 (command.Step 1)) all_moved_state ∷ []) finished_state (answered 1 (command.Step 1) (reply.Done 2)) finished_state (Some (reply.Done 2)) → ⊥ }
    ensures never_with_a_change { Follows (made (silent 1 (command.Step 1)) all_moved_state ∷ []) finished_state (answered 1 (command.Step 1) (reply.Done 1)) (with_map finished_state map_n) (Some (reply.Done 1)) → ⊥ }
{}

/// `pending P` comes to a command that would not be refused, and changes nothing. (That P is in the way is said of the trail.)
pub fn pending()
    ensures accepted { Follows [] empty_state (answered 1 (make_map map_m) (reply.Pending 1)) empty_state (Some (reply.Pending 1)) }
    ensures never_where_it_is_refused { Follows [] (with_map empty_state map_m) (answered 1 (make_map map_m) (reply.Pending 1)) (with_map empty_state map_m) (Some (reply.Pending 1)) → ⊥ }
    ensures never_to_a_step { Follows [] fresh_state (answered 1 (command.Step 1) (reply.Pending 1)) fresh_state (Some (reply.Pending 1)) → ⊥ }
    ensures never_with_a_change { Follows [] empty_state (answered 1 (make_map map_m) (reply.Pending 1)) (with_map empty_state map_m) (Some (reply.Pending 1)) → ⊥ }
{}

/// After a fault the command was done as a whole or not at all.
pub fn faults()
    ensures not_done { Follows [] empty_state (answered 1 (make_map map_m) reply.Fault) empty_state (Some reply.Fault) }
    ensures done { Follows [] empty_state (answered 1 (make_map map_m) reply.Fault) (with_map empty_state map_m) (Some reply.Fault) }
    ensures never_another_change { Follows [] empty_state (answered 1 (make_map map_m) reply.Fault) (with_map empty_state map_n) (Some reply.Fault) → ⊥ }
    ensures never_where_it_is_refused { Follows [] (with_map empty_state map_m) (answered 1 (make_map map_m) reply.Fault) empty_state (Some reply.Fault) → ⊥ }
{}

/// A fault of `attach`, `clear` or `detach` may leave what a detached site holds another.
pub fn faults_of_recovery()
    ensures attach_not_done { Follows [] (away_state Detached) (answered 1 (command.Attach site_a) reply.Fault) (away_state Detached) (Some reply.Fault) }
    ensures attach_holds_other { Follows [] (away_state Detached) (answered 1 (command.Attach site_a) reply.Fault) (holding (away_state Detached) one_row) (Some reply.Fault) }
    ensures attach_never_a_map { Follows [] (away_state Detached) (answered 1 (command.Attach site_a) reply.Fault) (with_map (away_state Detached) map_n) (Some reply.Fault) → ⊥ }
    ensures clear_not_done { Follows [] (away_state Suspect) (answered 1 (command.Clear site_a) reply.Fault) (away_state Suspect) (Some reply.Fault) }
    ensures clear_never_a_map { Follows [] (away_state Suspect) (answered 1 (command.Clear site_a) reply.Fault) (with_map (away_state Suspect) map_n) (Some reply.Fault) → ⊥ }
    ensures detach_not_done { Follows [] empty_state (answered 1 (command.Detach site_a) reply.Fault) empty_state (Some reply.Fault) }
    ensures detach_done { Follows [] empty_state (answered 1 (command.Detach site_a) reply.Fault) ((plain_step one_row empty_state 1 (command.Detach site_a)).0) (Some reply.Fault) }
    ensures detach_never_a_map { Follows [] empty_state (answered 1 (command.Detach site_a) reply.Fault) (with_map empty_state map_n) (Some reply.Fault) → ⊥ }
{}

/// A faulted `offline` may besides have ended the connections of its mapping.
pub fn faults_of_offline()
    ensures not_done { Follows [] (connected_state true) (answered 1 (command.Offline map_m (codes "5") None) reply.Fault) (connected_state true) (Some reply.Fault) }
    ensures done { Follows [] (connected_state true) (answered 1 (command.Offline map_m (codes "5") None) reply.Fault) ((plain_step holds_nothing (connected_state true) 1 (command.Offline map_m (codes "5") None)).0) (Some reply.Fault) }
    ensures connections_ended { Follows [] (connected_state true) (answered 1 (command.Offline map_m (codes "5") None) reply.Fault) (connected_state false) (Some reply.Fault) }
    ensures never_another_change { Follows [] (connected_state true) (answered 1 (command.Offline map_m (codes "5") None) reply.Fault) (with_map (connected_state true) map_n) (Some reply.Fault) → ⊥ }
    ensures others_end_none { Follows [] (connected_state true) (answered 1 (command.Find map_m (codes "5")) reply.Fault) (connected_state false) (Some reply.Fault) → ⊥ }
{}

/// A fault in a job leaves the state before the step or after it.
pub fn faults_in_a_job()
    ensures not_done { Follows [] copying_state (answered 1 (command.Step 1) reply.Fault) copying_state (Some reply.Fault) }
    ensures done { Follows [] copying_state (answered 1 (command.Step 1) reply.Fault) after_move (Some reply.Fault) }
    ensures offline_ends_connections { Follows [] (fresh_connected true) (answered 1 (command.Step 1) reply.Fault) (fresh_connected false) (Some reply.Fault) }
    ensures never_two_steps { Follows [] copying_state (answered 1 (command.Step 1) reply.Fault) between_state (Some reply.Fault) → ⊥ }
    ensures never_another_change { Follows [] copying_state (answered 1 (command.Step 1) reply.Fault) (with_map copying_state map_n) (Some reply.Fault) → ⊥ }
{}

/// A command that found no memory wasn't done.
pub fn memory()
    ensures not_done { Follows [] empty_state (answered 1 (make_map map_m) reply.Memory) empty_state (Some reply.Memory) }
    ensures never_done { Follows [] empty_state (answered 1 (make_map map_m) reply.Memory) (with_map empty_state map_m) (Some reply.Memory) → ⊥ }
    ensures attach_holds_other { Follows [] (away_state Detached) (answered 1 (command.Attach site_a) reply.Memory) (holding (away_state Detached) one_row) (Some reply.Memory) }
    ensures attach_never_a_map { Follows [] (away_state Detached) (answered 1 (command.Attach site_a) reply.Memory) (with_map (away_state Detached) map_n) (Some reply.Memory) → ⊥ }
    ensures clear_not_done { Follows [] (away_state Suspect) (answered 1 (command.Clear site_a) reply.Memory) (away_state Suspect) (Some reply.Memory) }
    ensures clear_never_a_map { Follows [] (away_state Suspect) (answered 1 (command.Clear site_a) reply.Memory) (with_map (away_state Suspect) map_n) (Some reply.Memory) → ⊥ }
    ensures detach_never_holds_other { Follows [] (away_state Detached) (answered 1 (command.Detach site_a) reply.Memory) (holding (away_state Detached) one_row) (Some reply.Memory) → ⊥ }
{}
