//! Examples of the sweep of a site's local rows, and of operations under way.
ghost use Rattle.std.specs.Prelude.{◌≡◌, [], ◌∷◌, Some, None};
ghost use Rattle.cell_world.specs.Sweep.{sweep, IsSwept, IsSweptPlain};
ghost use Rattle.cell_world.specs.UnderWay.{IsUnborn, IsDone, UnderWayOn, IsUnderWay};
ghost use Rattle.cell_world.specs.declared.cells.Away.TheVariants.{Detached};
ghost use Rattle.cell_world.specs.declared.cells.Mark.TheVariants.{Plain, Old, New};
ghost use Rattle.cell_world.specs.declared.cells.Status.TheVariants.{Online, Offline};
ghost use Rattle.world_examples.specs.Examples.{map_n, site_a, site_b, local_row, log_of, locals_of, away_of};
ghost use Rattle.world_examples.specs.Sounds.{image_logged, offline_logged, move_logged, marks_with};

// ---- the sweep: [0, 5) moves from `s/a` to `s/b` by operation 1, which is in the log

/// Going forward the rows of the hull that count become Old of it, whatever their marks, and the others go.
pub fn rows_as_it_steps()
    ensures plain { sweep (log_of (move_logged ∷ [])) move_logged (Old 1) (local_row 0 5 0 Offline Plain) ≡ Some (local_row 0 5 0 Offline (Old 1)) }
    ensures overlapping { sweep (log_of (move_logged ∷ [])) move_logged (Old 1) (local_row 3 9 0 Online Plain) ≡ Some (local_row 3 9 0 Online (Old 1)) }
    ensures new_of_one_that_committed { sweep (log_of (move_logged ∷ [])) move_logged (Old 1) (local_row 0 5 7 Offline New) ≡ Some (local_row 0 5 7 Offline (Old 1)) }
    ensures old_of_one_that_committed { sweep (log_of (move_logged ∷ [])) move_logged (Old 1) (local_row 3 9 0 Online (Old 7)) ≡ None }
    ensures beside_the_hull { sweep (log_of (move_logged ∷ [])) move_logged (Old 1) (local_row 5 9 0 Online (Old 7)) ≡ Some (local_row 5 9 0 Online (Old 7)) }
    ensures of_another_map { sweep (log_of (move_logged ∷ [])) move_logged (Old 1) (record (local_row 0 5 0 Offline Plain) { map = map_n }) ≡ Some (record (local_row 0 5 0 Offline Plain) { map = map_n }) }
{}

/// In undo the rows of the hull that count become Plain, and the others go, its own New row among them.
pub fn rows_as_it_is_undone()
    ensures own_old { sweep (log_of (move_logged ∷ [])) move_logged Plain (local_row 0 5 0 Offline (Old 1)) ≡ Some (local_row 0 5 0 Offline Plain) }
    ensures own_new { sweep (log_of (move_logged ∷ [])) move_logged Plain (local_row 0 5 1 Offline New) ≡ None }
    ensures new_of_one_that_committed { sweep (log_of (move_logged ∷ [])) move_logged Plain (local_row 3 9 7 Online New) ≡ Some (local_row 3 9 7 Online Plain) }
    ensures old_of_one_that_committed { sweep (log_of (move_logged ∷ [])) move_logged Plain (local_row 3 9 0 Online (Old 7)) ≡ None }
    ensures beside_the_hull { sweep (log_of (move_logged ∷ [])) move_logged Plain (local_row 5 9 0 Online (Old 7)) ≡ Some (local_row 5 9 0 Online (Old 7)) }
{}

/// A whole table of local rows, before and after.
pub fn tables_as_it_steps()
    ensures accepted { IsSwept (log_of (move_logged ∷ [])) move_logged (Old 1) (locals_of (local_row 0 5 0 Offline Plain ∷ local_row 5 9 0 Online Plain ∷ [])) (locals_of (local_row 0 5 0 Offline (Old 1) ∷ local_row 5 9 0 Online Plain ∷ [])) }
    ensures unmarked { IsSwept (log_of (move_logged ∷ [])) move_logged (Old 1) (locals_of (local_row 0 5 0 Offline Plain ∷ [])) (locals_of (local_row 0 5 0 Offline Plain ∷ [])) → ⊥ }
    ensures marked_beside { IsSwept (log_of (move_logged ∷ [])) move_logged (Old 1) (locals_of (local_row 5 9 0 Online Plain ∷ [])) (locals_of (local_row 5 9 0 Online (Old 1) ∷ [])) → ⊥ }
    ensures dropped { IsSwept (log_of (move_logged ∷ [])) move_logged (Old 1) (locals_of (local_row 0 5 0 Offline Plain ∷ [])) (locals_of []) → ⊥ }
    ensures added { IsSwept (log_of (move_logged ∷ [])) move_logged (Old 1) (locals_of []) (locals_of (local_row 0 5 1 Offline New ∷ [])) → ⊥ }
{}

/// Swept plain: a row that overlaps the hull is Plain, and one beside it may be marked.
pub fn rows_swept_plain()
    ensures accepted { IsSweptPlain move_logged (locals_of (local_row 0 5 0 Offline Plain ∷ local_row 5 9 0 Online (Old 7) ∷ [])) }
    ensures old { IsSweptPlain move_logged (locals_of (local_row 0 5 0 Offline (Old 1) ∷ [])) → ⊥ }
    ensures new { IsSweptPlain move_logged (locals_of (local_row 0 5 1 Offline New ∷ [])) → ⊥ }
    ensures of_another { IsSweptPlain move_logged (locals_of (local_row 3 9 0 Online (Old 7) ∷ [])) → ⊥ }
{}

// ---- at one site

/// Unborn: no row has its number, whatever the mark and the span, and none is Old of it.
pub fn rows_unborn()
    ensures accepted { IsUnborn 1 (locals_of (local_row 0 5 0 Offline Plain ∷ local_row 5 9 2 Online New ∷ [])) }
    ensures new { IsUnborn 1 (locals_of (local_row 0 5 1 Offline New ∷ [])) → ⊥ }
    ensures plain { IsUnborn 1 (locals_of (local_row 5 9 1 Online Plain ∷ [])) → ⊥ }
    ensures old_of_another { IsUnborn 1 (locals_of (local_row 5 9 1 Online (Old 2) ∷ [])) → ⊥ }
    ensures old { IsUnborn 1 (locals_of (local_row 0 5 0 Offline (Old 1) ∷ [])) → ⊥ }
    ensures marked_by_another { IsUnborn 1 (locals_of (local_row 0 5 0 Offline (Old 2) ∷ [])) }
{}

/// Done: each row that overlaps the hull has its mark, and each new mapping of the site has its New row.
pub fn rows_done()
    ensures source { IsDone move_logged site_a (locals_of (local_row 0 5 0 Offline (Old 1) ∷ local_row 5 9 0 Online (Old 7) ∷ [])) }
    ensures target { IsDone move_logged site_b (locals_of (local_row 0 5 1 Offline New ∷ [])) }
    ensures unmarked { IsDone move_logged site_a (locals_of (local_row 0 5 0 Offline Plain ∷ [])) → ⊥ }
    ensures old_of_another { IsDone move_logged site_a (locals_of (local_row 3 9 0 Online (Old 7) ∷ [])) → ⊥ }
    ensures new_of_another { IsDone move_logged site_a (locals_of (local_row 3 9 7 Online New ∷ [])) → ⊥ }
    ensures no_new_row { IsDone move_logged site_b (locals_of []) → ⊥ }
    ensures status_of_the_new_row { IsDone move_logged site_b (locals_of (local_row 0 5 1 Online New ∷ [])) → ⊥ }
    ensures span_of_the_new_row { IsDone move_logged site_b (locals_of (local_row 0 4 1 Offline New ∷ [])) → ⊥ }
{}

// ---- at all sites

/// Begun, then done at the source, then at the target too. Of a site that is away nothing is said.
pub fn operations_under_way()
    ensures begun { UnderWayOn (marks_with (move_logged ∷ []) 2 (local_row 0 5 0 Offline Plain ∷ []) []) move_logged [] }
    ensures source { UnderWayOn (marks_with (move_logged ∷ []) 2 (local_row 0 5 0 Offline (Old 1) ∷ []) []) move_logged (site_a ∷ []) }
    ensures target { UnderWayOn (marks_with (move_logged ∷ []) 2 (local_row 0 5 0 Offline (Old 1) ∷ []) (local_row 0 5 1 Offline New ∷ [])) move_logged (site_b ∷ site_a ∷ []) }
    ensures site_away { UnderWayOn (record (marks_with (move_logged ∷ []) 2 (local_row 0 5 0 Offline Plain ∷ []) (local_row 5 9 1 Online Plain ∷ [])) { away = away_of ((site_b, Detached) ∷ []) }) move_logged [] }
    ensures whole_image { IsUnderWay image_logged offline_logged (site_a ∷ []) }
{}

/// It isn't in the log, it isn't done where it is to be, or a row has its number where it is to be unborn.
pub fn operations_not_under_way()
    ensures not_in_log { UnderWayOn (marks_with [] 2 (local_row 0 5 0 Offline Plain ∷ []) []) move_logged [] → ⊥ }
    ensures not_done { UnderWayOn (marks_with (move_logged ∷ []) 2 (local_row 0 5 0 Offline Plain ∷ []) []) move_logged (site_a ∷ []) → ⊥ }
    ensures born_at_target { UnderWayOn (marks_with (move_logged ∷ []) 2 (local_row 0 5 0 Offline (Old 1) ∷ []) (local_row 0 5 1 Offline New ∷ [])) move_logged (site_a ∷ []) → ⊥ }
    ensures named_elsewhere { UnderWayOn (marks_with (move_logged ∷ []) 2 (local_row 0 5 0 Offline Plain ∷ []) (local_row 5 9 1 Online Plain ∷ [])) move_logged [] → ⊥ }
{}
