//! Examples of what an entry's reply says of the trail.
ghost use Rattle.std.specs.Prelude.{[], ◌∷◌, Some, true, false};
ghost use Rattle.std.specs.FinMap as fin;
ghost use Rattle.cell_world.specs.Stores.{empty_store};
ghost use Rattle.cell_world.specs.Images.{Global, Shard, Committed, Reopened};
ghost use Rattle.cell_world.specs.declared.cells.Away.TheVariants.{Detached, Suspect};
ghost use Rattle.plain_model.specs.declared.commands.Command.TheVariants as command;
ghost use Rattle.plain_model.specs.declared.replies.Refusal.TheVariants as refused;
ghost use Rattle.plain_model.specs.declared.replies.Reply.TheVariants as reply;
ghost use Rattle.plain_model.specs.OnTrail.{OnTrail};
ghost use Rattle.plain_model.specs.Steps.{attach};
ghost use Rattle.plain_model.specs.Timelines.{Happened, Entered};
ghost use Rattle.model_examples.specs.Values.{make_map, answered, naming, empty_state, away_state, holding, one_row, one_connection, connected_state, state_with_jobs, copying_state, two_sites, with_global, with_cells, row_cells, add_op, offline_op, tried, fresh_connected, job_offline_op, add_0_10, offline_5};
ghost use Rattle.world_examples.specs.Examples.{map_m, site_a};

/// An accepted `detach` leaves at its site what stood there just before its commit.
pub fn held_after_detach()
    ensures as_it_stood { OnTrail (with_cells two_sites row_cells) (Happened (Committed Global [] true) ∷ []) empty_state (answered 1 (command.Detach site_a) reply.Ok) (holding (away_state Detached) (record { locals = row_cells.locals; rows = row_cells.rows })) (Some reply.Ok) }
    ensures never_nothing { OnTrail (with_cells two_sites row_cells) (Happened (Committed Global [] true) ∷ []) empty_state (answered 1 (command.Detach site_a) reply.Ok) (away_state Detached) (Some reply.Ok) → ⊥ }
{}

/// An accepted `attach` comes after a reopening of its site, and leaves what is kept of the cells that it brought.
pub fn held_after_attach()
    ensures as_it_came_back { OnTrail two_sites (Happened (Committed Global [] true) ∷ Happened (Reopened (Shard site_a) row_cells) ∷ []) (away_state Detached) (answered 1 (command.Attach site_a) reply.Ok) (holding (away_state Suspect) one_row) (Some reply.Ok) }
    ensures never_what_it_was { OnTrail (with_cells two_sites row_cells) (Happened (Reopened (Shard site_a) empty_store) ∷ []) (away_state Detached) (answered 1 (command.Attach site_a) reply.Ok) (holding (away_state Suspect) one_row) (Some reply.Ok) → ⊥ }
    ensures never_without_a_reopening { OnTrail (with_cells two_sites row_cells) (Happened (Committed Global [] true) ∷ []) (away_state Detached) (answered 1 (command.Attach site_a) reply.Ok) (holding (away_state Suspect) one_row) (Some reply.Ok) → ⊥ }
    ensures never_with_an_earlier_reopening { OnTrail two_sites (Entered (answered 2 (make_map map_m) reply.Ok) ∷ Happened (Reopened (Shard site_a) row_cells) ∷ []) (away_state Detached) (answered 1 (command.Attach site_a) reply.Ok) (holding (away_state Suspect) one_row) (Some reply.Ok) → ⊥ }
{}

/// `pending P` names the least live operation in the way: here of `add m 0 10`.
pub fn pending_in_the_way()
    ensures of_one { OnTrail two_sites (Happened (tried (add_op 1 5 15) true) ∷ []) (state_with_jobs [] []) (answered 2 add_0_10 (reply.Pending 1)) (state_with_jobs [] []) (Some (reply.Pending 1)) }
    ensures never_the_greater { OnTrail two_sites (Happened (tried (add_op 2 0 5) true) ∷ Happened (tried (add_op 1 5 15) true) ∷ []) (state_with_jobs [] []) (answered 2 add_0_10 (reply.Pending 2)) (state_with_jobs [] []) (Some (reply.Pending 2)) → ⊥ }
    ensures never_one_beside { OnTrail two_sites (Happened (tried (add_op 1 10 15) true) ∷ []) (state_with_jobs [] []) (answered 2 add_0_10 (reply.Pending 1)) (state_with_jobs [] []) (Some (reply.Pending 1)) → ⊥ }
    ensures never_one_that_an_entry_named { OnTrail two_sites (Entered (naming (answered 1 add_0_10 reply.Fault) 1) ∷ Happened (tried (add_op 1 5 15) true) ∷ []) (state_with_jobs [] []) (answered 2 add_0_10 (reply.Pending 1)) (state_with_jobs [] []) (Some (reply.Pending 1)) → ⊥ }
    ensures never_one_that_was_not_logged { OnTrail two_sites (Happened (tried (add_op 1 5 15) false) ∷ []) (state_with_jobs [] []) (answered 2 add_0_10 (reply.Pending 1)) (state_with_jobs [] []) (Some (reply.Pending 1)) → ⊥ }
    ensures never_one_of_an_earlier_run { OnTrail (with_global (record empty_store { log = fin.insert fin.empty 1 (add_op 1 5 15) })) [] (state_with_jobs [] []) (answered 2 add_0_10 (reply.Pending 1)) (state_with_jobs [] []) (Some (reply.Pending 1)) → ⊥ }
{}

/// `full` for want of numbers needs that the counter says 2^63.
pub fn numbers_are_spent()
    ensures at_the_last { OnTrail (with_global (record empty_store { counter = Some (record { operation = 9223372036854775808; job = 1 }) })) [] empty_state (answered 1 (make_map map_m) (reply.Refused refused.Full)) empty_state (Some (reply.Refused refused.Full)) }
    ensures never_before { OnTrail two_sites [] empty_state (answered 1 (make_map map_m) (reply.Refused refused.Full)) empty_state (Some (reply.Refused refused.Full)) → ⊥ }
{}

/// Once its own log cell was tried, a faulted `offline` has ended the connections of its mapping, made or not.
pub fn offline_was_tried()
    ensures ended { OnTrail two_sites (Happened (tried (offline_op 1) false) ∷ []) (connected_state true) (naming (answered 1 offline_5 reply.Fault) 1) (connected_state false) (Some reply.Fault) }
    ensures never_left_open { OnTrail two_sites (Happened (tried (offline_op 1) false) ∷ []) (connected_state true) (naming (answered 1 offline_5 reply.Fault) 1) (connected_state true) (Some reply.Fault) → ⊥ }
    ensures left_open_before { OnTrail two_sites [] (connected_state true) (answered 1 offline_5 reply.Fault) (connected_state true) (Some reply.Fault) }
    ensures left_open_where_another_session_tried { OnTrail two_sites (Happened (tried (offline_op 1) true) ∷ []) (connected_state true) (answered 1 offline_5 reply.Fault) (connected_state true) (Some reply.Fault) }
    ensures left_open_after_an_earlier_try { OnTrail two_sites (Entered (naming (answered 1 offline_5 reply.Fault) 1) ∷ Happened (tried (offline_op 1) false) ∷ []) (connected_state true) (naming (answered 1 offline_5 reply.Fault) 1) (connected_state true) (Some reply.Fault) }
{}

/// In a job connections end without the step only where it is the offline, or where the offline was tried.
pub fn causes_in_a_job()
    ensures not_done { OnTrail two_sites [] copying_state (answered 1 (command.Step 1) reply.Fault) copying_state (Some reply.Fault) }
    ensures ended_at_the_offline { OnTrail two_sites [] (fresh_connected true) (answered 1 (command.Step 1) reply.Fault) (fresh_connected false) (Some reply.Fault) }
    ensures ended_where_it_was_tried { OnTrail two_sites (Happened (tried job_offline_op false) ∷ []) (fresh_connected true) (naming (answered 1 (command.Step 1) reply.Fault) 1) (fresh_connected false) (Some reply.Fault) }
    ensures never_left_open_where_it_was_tried { OnTrail two_sites (Happened (tried job_offline_op false) ∷ []) (fresh_connected true) (naming (answered 1 (command.Step 1) reply.Fault) 1) (fresh_connected true) (Some reply.Fault) → ⊥ }
    ensures never_ended_at_the_move { OnTrail two_sites [] (record copying_state { connections = one_connection true }) (answered 1 (command.Step 1) reply.Fault) (record copying_state { connections = one_connection false }) (Some reply.Fault) → ⊥ }
{}

/// A faulted `attach` left the old state, or came after a reopening.
pub fn attach_was_tried()
    ensures not_done { OnTrail two_sites [] (away_state Detached) (answered 1 (command.Attach site_a) reply.Fault) (away_state Detached) (Some reply.Fault) }
    ensures done_after_a_reopening { OnTrail two_sites (Happened (Reopened (Shard site_a) row_cells) ∷ []) (away_state Detached) (answered 1 (command.Attach site_a) reply.Fault) (attach (away_state Detached) site_a one_row) (Some reply.Fault) }
    ensures never_done_without_a_reopening { OnTrail two_sites [] (away_state Detached) (answered 1 (command.Attach site_a) reply.Fault) (holding (away_state Suspect) one_row) (Some reply.Fault) → ⊥ }
{}
