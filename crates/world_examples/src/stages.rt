//! Examples of counted rows, of marks, and of how far an operation has come.
ghost use Rattle.std.specs.Prelude.{◌≡◌, true, false, [], ◌∷◌, None};
ghost use Rattle.cell_world.specs.Texts.{Text};
ghost use Rattle.cell_world.specs.Images.{Image};
ghost use Rattle.cell_world.specs.Meaning.{counts};
ghost use Rattle.cell_world.specs.Sound.{IsAttachedIn, locals_at};
ghost use Rattle.cell_world.specs.Marked.{Marked, MarkedOn, MarkedAt, HasNoMark, NoMarksElsewhereOn, NoMarksElsewhere, IsCommitted, committed, jobs_after};
ghost use Rattle.cell_world.specs.declared.cells.Away.TheVariants.{Detached};
ghost use Rattle.cell_world.specs.declared.cells.Mark.TheVariants.{Plain, Old, New};
ghost use Rattle.cell_world.specs.declared.cells.Status.TheVariants.{Online, Offline};
ghost use Rattle.cell_world.specs.declared.operations.Op.{Op};
ghost use Rattle.cell_world.specs.declared.operations.StageName.TheVariants.{Logged, SourceDone, TargetDone, Committed, Settled};
ghost use Rattle.cell_world.specs.declared.operations.Phase.TheVariants.{Idle, Copying};
ghost use Rattle.cell_world.specs.declared.spans.High.TheVariants.{At};
ghost use Rattle.world_examples.specs.Examples.{int_key, site_a, site_b, free_piece, local_row, job_at, add_at_a, offline_for_b, mappings_of, log_of, jobs_of, locals_of, away_of};
ghost use Rattle.world_examples.specs.Sounds.{image_logged, offline_logged, add_logged, move_logged, marks_with, global_with, global_moves, global_moved};

// ---- counted rows

/// The worked example: [0, 10) is Old of operation 1, and [0, 4) was made by it. While it is logged the first counts, and once it isn't the second.
pub fn counted_rows()
    ensures old_while_logged { counts (log_of (add_at_a ∷ [])) (local_row 0 10 0 Online (Old 1)) ≡ true }
    ensures new_while_logged { counts (log_of (add_at_a ∷ [])) (local_row 0 4 1 Online New) ≡ false }
    ensures old_afterwards { counts (log_of []) (local_row 0 10 0 Online (Old 1)) ≡ false }
    ensures new_afterwards { counts (log_of []) (local_row 0 4 1 Online New) ≡ true }
{}

/// A Plain row counts, whoever made it; a mark of another operation than the logged one is of none.
pub fn counted_rows_of_other_operations()
    ensures plain { counts (log_of []) (local_row 0 10 0 Online Plain) ≡ true }
    ensures plain_of_logged { counts (log_of (add_at_a ∷ [])) (local_row 0 10 1 Online Plain) ≡ true }
    ensures old_of_other { counts (log_of (add_at_a ∷ [])) (local_row 0 10 1 Online (Old 2)) ≡ false }
    ensures new_of_other { counts (log_of (add_at_a ∷ [])) (local_row 0 10 2 Online New) ≡ true }
{}

// ---- stages: [0, 5) moves from `s/a` to `s/b` by operation 1

/// It is in the log, and no site is marked.
pub fn stage_logged()
    ensures accepted { MarkedOn (marks_with (move_logged ∷ []) 2 (local_row 0 5 0 Offline Plain ∷ []) []) move_logged Logged }
    ensures not_in_log { MarkedOn (marks_with [] 2 (local_row 0 5 0 Offline Plain ∷ []) []) move_logged Logged → ⊥ }
    ensures other_in_log { MarkedOn (marks_with (add_at_a ∷ []) 2 (local_row 0 5 0 Offline Plain ∷ []) []) move_logged Logged → ⊥ }
{}

/// Besides, the row at the source is Old of it.
pub fn stage_source_done()
    ensures accepted { MarkedOn (marks_with (move_logged ∷ []) 2 (local_row 0 5 0 Offline (Old 1) ∷ []) []) move_logged SourceDone }
    ensures not_in_log { MarkedOn (marks_with [] 2 (local_row 0 5 0 Offline (Old 1) ∷ []) []) move_logged SourceDone → ⊥ }
    ensures unmarked { MarkedOn (marks_with (move_logged ∷ []) 2 (local_row 0 5 0 Offline Plain ∷ []) []) move_logged SourceDone → ⊥ }
    ensures marked_otherwise { MarkedOn (marks_with (move_logged ∷ []) 2 (local_row 0 5 0 Offline (Old 7) ∷ []) []) move_logged SourceDone → ⊥ }
{}

/// Besides, the target has the New row of it.
pub fn stage_target_done()
    ensures accepted { MarkedOn (marks_with (move_logged ∷ []) 2 (local_row 0 5 0 Offline (Old 1) ∷ []) (local_row 0 5 1 Offline New ∷ [])) move_logged TargetDone }
    ensures whole_image { Marked image_logged offline_logged TargetDone }
    ensures whole_image_of_an_add { Marked image_logged add_logged TargetDone }
    ensures source_unmarked { MarkedOn (marks_with (move_logged ∷ []) 2 (local_row 0 5 0 Offline Plain ∷ []) (local_row 0 5 1 Offline New ∷ [])) move_logged TargetDone → ⊥ }
    ensures no_new_row { MarkedOn (marks_with (move_logged ∷ []) 2 (local_row 0 5 0 Offline (Old 1) ∷ []) []) move_logged TargetDone → ⊥ }
    ensures of_other_number { MarkedOn (marks_with (move_logged ∷ []) 3 (local_row 0 5 0 Offline (Old 1) ∷ []) (local_row 0 5 2 Offline New ∷ [])) move_logged TargetDone → ⊥ }
{}

/// It is out of the log, and its marks still stand.
pub fn stage_committed()
    ensures accepted { MarkedOn (marks_with [] 2 (local_row 0 5 0 Offline (Old 1) ∷ []) (local_row 0 5 1 Offline New ∷ [])) move_logged Committed }
    ensures in_log { MarkedOn (marks_with (move_logged ∷ []) 2 (local_row 0 5 0 Offline (Old 1) ∷ []) (local_row 0 5 1 Offline New ∷ [])) move_logged Committed → ⊥ }
    ensures number_not_given { MarkedOn (marks_with [] 1 [] []) move_logged Committed → ⊥ }
{}

/// Its marks are gone at both sites, or stand at a site that is away.
pub fn stage_settled()
    ensures accepted { MarkedOn (marks_with [] 2 [] (local_row 0 5 1 Offline Plain ∷ [])) move_logged Settled }
    ensures site_away { MarkedOn (record (marks_with [] 2 (local_row 0 5 0 Offline (Old 1) ∷ []) (local_row 0 5 1 Offline Plain ∷ [])) { away = away_of ((site_a, Detached) ∷ []) }) move_logged Settled }
    ensures in_log { MarkedOn (marks_with (move_logged ∷ []) 2 [] (local_row 0 5 1 Offline Plain ∷ [])) move_logged Settled → ⊥ }
    ensures number_not_given { MarkedOn (marks_with [] 1 [] []) move_logged Settled → ⊥ }
    ensures old_left { MarkedOn (marks_with [] 2 (local_row 0 5 0 Offline (Old 1) ∷ []) (local_row 0 5 1 Offline Plain ∷ [])) move_logged Settled → ⊥ }
    ensures new_left { MarkedOn (marks_with [] 2 [] (local_row 0 5 1 Offline New ∷ [])) move_logged Settled → ⊥ }
{}

/// The marks at one site. A row of another operation in the log may stand there, and one out of the log only beside the hull.
pub fn marks_at_a_site()
    ensures accepted { MarkedAt (log_of (move_logged ∷ [])) move_logged site_a (locals_of (local_row 0 5 0 Offline (Old 1) ∷ local_row 5 9 0 Online (Old 7) ∷ [])) }
    ensures other_in_log { MarkedAt (log_of (move_logged ∷ record add_at_a { number = 2 } ∷ [])) move_logged site_a (locals_of (local_row 0 5 0 Offline (Old 1) ∷ local_row 3 9 0 Online (Old 2) ∷ [])) }
    ensures status { MarkedAt (log_of (move_logged ∷ [])) move_logged site_a (locals_of (local_row 0 5 0 Online (Old 1) ∷ [])) → ⊥ }
    ensures span { MarkedAt (log_of (move_logged ∷ [])) move_logged site_a (locals_of (local_row 0 4 0 Offline (Old 1) ∷ [])) → ⊥ }
    ensures new_at_target { MarkedAt (log_of (move_logged ∷ [])) move_logged site_b (locals_of []) → ⊥ }
    ensures old_mark_in_the_hull { MarkedAt (log_of (move_logged ∷ [])) move_logged site_a (locals_of (local_row 0 5 0 Offline (Old 1) ∷ local_row 3 9 0 Online (Old 7) ∷ [])) → ⊥ }
    ensures new_mark_in_the_hull { MarkedAt (log_of (move_logged ∷ [])) move_logged site_a (locals_of (local_row 0 5 0 Offline (Old 1) ∷ local_row 3 9 7 Online New ∷ [])) → ⊥ }
{}

// ---- no marks elsewhere: [0, 5) goes offline at `s/a`, so `s/b` is none of the operation's sites

/// At another site no row has its mark, or the site is away. At its own site its marks may stand.
pub fn marks_elsewhere()
    ensures accepted { NoMarksElsewhereOn (marks_with [] 2 (local_row 0 5 0 Online (Old 1) ∷ local_row 0 5 1 Offline New ∷ []) (local_row 0 5 0 Online (Old 7) ∷ local_row 5 9 1 Online Plain ∷ [])) offline_logged }
    ensures site_away { NoMarksElsewhereOn (record (marks_with [] 2 [] (local_row 0 5 0 Online (Old 1) ∷ [])) { away = away_of ((site_b, Detached) ∷ []) }) offline_logged }
    ensures whole_image { NoMarksElsewhere image_logged offline_logged }
    ensures old { NoMarksElsewhereOn (marks_with [] 2 [] (local_row 0 5 0 Online (Old 1) ∷ [])) offline_logged → ⊥ }
    ensures new { NoMarksElsewhereOn (marks_with [] 2 [] (local_row 0 5 1 Offline New ∷ [])) offline_logged → ⊥ }
    ensures beside_the_hull { NoMarksElsewhereOn (marks_with [] 2 [] (local_row 7 9 1 Online New ∷ [])) offline_logged → ⊥ }
{}

/// The other site of a job has no mapping of the job's step, so no mark of it either.
pub fn marks_at_the_other_site_of_a_job()
    ensures accepted { NoMarksElsewhereOn (marks_with [] 2 (local_row 0 10 0 Online (Old 1) ∷ []) []) offline_for_b }
    ensures old { NoMarksElsewhereOn (marks_with [] 2 [] (local_row 0 10 0 Online (Old 1) ∷ [])) offline_for_b → ⊥ }
{}

/// Where it is settled and no mark is elsewhere, no row at any attached site has its mark.
pub fn no_mark_anywhere()
    ensures { (image : Image) (op : Op) → Marked image op Settled → NoMarksElsewhere image op → (location : Text) → IsAttachedIn image location → HasNoMark op (locals_at image location) }
{}

// ---- the step to Committed

/// As it commits the news stand for the olds, its log row goes, and no other mapping, no other log row and no counter changes.
pub fn global_store_as_it_commits()
    ensures accepted { IsCommitted (global_moves (move_logged ∷ add_logged ∷ [])) move_logged (global_moved (add_logged ∷ [])) }
    ensures not_replaced { IsCommitted (global_moves (move_logged ∷ [])) move_logged (global_moves []) → ⊥ }
    ensures one_more_changed { IsCommitted (global_moves (move_logged ∷ [])) move_logged (record (global_moved []) { mappings = mappings_of (free_piece 0 5 site_b Offline ∷ []) }) → ⊥ }
    ensures log_row_left { IsCommitted (global_moves (move_logged ∷ [])) move_logged (global_moved (move_logged ∷ [])) → ⊥ }
    ensures other_log_row_gone { IsCommitted (global_moves (move_logged ∷ add_logged ∷ [])) move_logged (global_moved []) → ⊥ }
    ensures counter { IsCommitted (global_moves (move_logged ∷ [])) move_logged (record (global_moved []) { counter = None }) → ⊥ }
{}

/// A job's step puts the job as well.
pub fn job_as_its_step_commits()
    ensures accepted { jobs_after (jobs_of (job_at 0 Idle ∷ [])) offline_for_b.extra ≡ jobs_of (job_at 0 (Copying (At (int_key 10))) ∷ []) }
    ensures none { jobs_after (jobs_of (job_at 0 Idle ∷ [])) move_logged.extra ≡ jobs_of (job_at 0 Idle ∷ []) }
    ensures not_put { IsCommitted (global_with [] [] (job_at 0 Idle ∷ []) None) offline_for_b (record (committed (global_with [] [] (job_at 0 Idle ∷ []) None) offline_for_b) { jobs = jobs_of (job_at 0 Idle ∷ []) }) → ⊥ }
{}
