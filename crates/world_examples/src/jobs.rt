//! Examples of the table of a job, and of where its batches end.
ghost use Rattle.std.specs.Prelude.{◌≡◌, [], ◌∷◌};
ghost use Rattle.cell_world.specs.Jobs.{Always, Replace, Finish, Stuck, with_end, next_above, end_of_batch, keys_between, batch_end, job_step};
ghost use Rattle.cell_world.specs.declared.cells.Status.TheVariants.{Online, Offline};
ghost use Rattle.cell_world.specs.declared.operations.Phase.TheVariants.{Idle, Copying, Moved};
ghost use Rattle.cell_world.specs.declared.operations.Extra.TheVariants.{None, JobPut};
ghost use Rattle.cell_world.specs.declared.spans.High.TheVariants.{At, Max};
ghost use Rattle.world_examples.specs.Examples.{int_key, map_m, map_n, site_a, site_b, job_piece, job_at, job_from, rows_under_keys, owner_with, row_with, state_with};

// ---- where a batch ends

/// The first key above a key, or the end.
pub fn keys_above()
    ensures none { next_above (int_key 3) [] (At (int_key 9)) ≡ At (int_key 9) }
    ensures only_itself { next_above (int_key 3) (int_key 3 ∷ int_key 3 ∷ []) (At (int_key 9)) ≡ At (int_key 9) }
    ensures after_itself { next_above (int_key 3) (int_key 3 ∷ int_key 4 ∷ int_key 5 ∷ []) (At (int_key 9)) ≡ At (int_key 4) }
    ensures unbounded { next_above (int_key 3) (int_key 3 ∷ []) Max ≡ Max }
{}

/// Where a batch of two rows ends, by the keys of its rows.
pub fn ends_of_batches()
    ensures no_row { end_of_batch 2 [] (At (int_key 9)) ≡ At (int_key 9) }
    ensures one_row { end_of_batch 2 (int_key 1 ∷ []) (At (int_key 9)) ≡ At (int_key 9) }
    ensures full { end_of_batch 2 (int_key 1 ∷ int_key 2 ∷ []) (At (int_key 9)) ≡ At (int_key 9) }
    ensures one_more { end_of_batch 2 (int_key 1 ∷ int_key 2 ∷ int_key 3 ∷ []) (At (int_key 9)) ≡ At (int_key 3) }
    ensures two_more { end_of_batch 2 (int_key 1 ∷ int_key 2 ∷ int_key 3 ∷ int_key 4 ∷ []) (At (int_key 9)) ≡ At (int_key 3) }
    ensures key_stays_whole { end_of_batch 2 (int_key 1 ∷ int_key 2 ∷ int_key 2 ∷ []) (At (int_key 9)) ≡ At (int_key 2) }
    ensures large_key { end_of_batch 2 (int_key 1 ∷ int_key 1 ∷ int_key 1 ∷ int_key 4 ∷ []) (At (int_key 9)) ≡ At (int_key 4) }
    ensures large_last_key { end_of_batch 2 (int_key 1 ∷ int_key 1 ∷ int_key 1 ∷ []) (At (int_key 9)) ≡ At (int_key 9) }
    ensures one_a_batch { end_of_batch 1 (int_key 1 ∷ int_key 2 ∷ []) (At (int_key 9)) ≡ At (int_key 2) }
{}

/// The keys of a map's rows from a low key up to an end, a key once for each of its rows.
pub fn keys_of_rows()
    ensures between { keys_between (rows_under_keys (1 ∷ 3 ∷ 3 ∷ 5 ∷ 7 ∷ [])) map_m (int_key 3) (At (int_key 7)) ≡ int_key 3 ∷ int_key 3 ∷ int_key 5 ∷ [] }
    ensures unbounded { keys_between (rows_under_keys (1 ∷ 3 ∷ [])) map_m (int_key 3) Max ≡ int_key 3 ∷ [] }
    ensures other_map { keys_between (rows_under_keys (1 ∷ 3 ∷ [])) map_n (int_key 0) Max ≡ [] }
{}

/// Where the next batch of job 1 ends, which moves [0, 10) in batches of two rows.
pub fn batch_ends_of_a_job()
    ensures no_row { batch_end (owner_with (job_piece 0 10 site_a Online ∷ [])) (rows_under_keys []) (job_at 0 Idle) ≡ At (int_key 10) }
    ensures full { batch_end (owner_with (job_piece 0 10 site_a Online ∷ [])) (rows_under_keys (1 ∷ 2 ∷ [])) (job_at 0 Idle) ≡ At (int_key 10) }
    ensures one_more { batch_end (owner_with (job_piece 0 10 site_a Online ∷ [])) (rows_under_keys (1 ∷ 2 ∷ 3 ∷ [])) (job_at 0 Idle) ≡ At (int_key 3) }
    ensures below_cursor { batch_end (owner_with (job_piece 0 2 site_b Online ∷ job_piece 2 10 site_a Online ∷ [])) (rows_under_keys (1 ∷ 2 ∷ 3 ∷ [])) (job_at 2 Idle) ≡ At (int_key 10) }
    ensures mapping_first { batch_end (owner_with (job_piece 0 5 site_a Online ∷ job_piece 5 10 site_a Online ∷ [])) (rows_under_keys (1 ∷ 6 ∷ 7 ∷ [])) (job_at 0 Idle) ≡ At (int_key 5) }
    ensures job_first { batch_end (owner_with (job_piece 0 12 site_a Online ∷ [])) (rows_under_keys (1 ∷ 11 ∷ 12 ∷ [])) (job_at 0 Idle) ≡ At (int_key 10) }
    ensures end_of_range { batch_end (owner_with (job_piece 0 10 site_b Online ∷ [])) (rows_under_keys (1 ∷ [])) (job_at 10 Idle) ≡ At (int_key 10) }
{}

// ---- the table

/// The rows of the table while no batch is under way: job 1 moves [0, 10) from `s/a` to `s/b`.
pub fn steps_without_a_batch()
    ensures merge { row_with (job_piece 0 3 site_b Online ∷ job_piece 3 5 site_b Online ∷ job_piece 5 10 site_a Online ∷ []) (job_at 5 Idle)
        ≡ Always (Replace (job_piece 0 3 site_b Online ∷ job_piece 3 5 site_b Online ∷ []) (job_piece 0 5 site_b Online ∷ []) None) }
    ensures last_merge { row_with (job_piece 0 5 site_b Online ∷ job_piece 5 10 site_b Online ∷ []) (job_at 10 Idle)
        ≡ Always (Replace (job_piece 0 5 site_b Online ∷ job_piece 5 10 site_b Online ∷ []) (job_piece 0 10 site_b Online ∷ []) None) }
    ensures finish { row_with (job_piece 0 10 site_b Online ∷ []) (job_at 10 Idle) ≡ Always Finish }
    ensures split_at_cursor { row_with (job_piece 0 10 site_a Online ∷ []) (job_from 2)
        ≡ Always (Replace (job_piece 0 10 site_a Online ∷ []) (job_piece 0 2 site_a Online ∷ job_piece 2 10 site_a Online ∷ []) None) }
    ensures split_at_end { with_end (row_with (job_piece 0 10 site_a Online ∷ []) (job_at 0 Idle)) (At (int_key 3))
        ≡ Replace (job_piece 0 10 site_a Online ∷ []) (job_piece 0 3 site_a Online ∷ job_piece 3 10 site_a Online ∷ []) None }
    ensures offline { with_end (row_with (job_piece 0 3 site_a Online ∷ job_piece 3 10 site_a Online ∷ []) (job_at 0 Idle)) (At (int_key 3))
        ≡ Replace (job_piece 0 3 site_a Online ∷ []) (job_piece 0 3 site_a Offline ∷ []) (JobPut (job_at 0 (Copying (At (int_key 3))))) }
    ensures nobody { row_with [] (job_at 0 Idle) ≡ Always Stuck }
{}

/// The rows of the table while a batch, [0, 3), is under way.
pub fn steps_of_a_batch()
    ensures move_there { row_with (job_piece 0 3 site_a Offline ∷ job_piece 3 10 site_a Online ∷ []) (job_at 0 (Copying (At (int_key 3))))
        ≡ Always (Replace (job_piece 0 3 site_a Offline ∷ []) (job_piece 0 3 site_b Offline ∷ []) (JobPut (job_at 0 (Moved (At (int_key 3)))))) }
    ensures online { row_with (job_piece 0 3 site_b Offline ∷ job_piece 3 10 site_a Online ∷ []) (job_at 0 (Moved (At (int_key 3))))
        ≡ Always (Replace (job_piece 0 3 site_b Offline ∷ []) (job_piece 0 3 site_b Online ∷ []) (JobPut (job_at 3 Idle))) }
    ensures nobody { row_with [] (job_at 0 (Copying (At (int_key 3)))) ≡ Always Stuck }
{}

/// The table and the batch end together: the step of job 1 on a plain state, by its rows.
pub fn steps_on_a_state()
    ensures split { job_step (state_with (job_piece 0 10 site_a Online ∷ []) (1 ∷ 2 ∷ 3 ∷ [])) (job_at 0 Idle)
        ≡ Replace (job_piece 0 10 site_a Online ∷ []) (job_piece 0 3 site_a Online ∷ job_piece 3 10 site_a Online ∷ []) None }
    ensures offline { job_step (state_with (job_piece 0 3 site_a Online ∷ job_piece 3 10 site_a Online ∷ []) (1 ∷ 2 ∷ 3 ∷ [])) (job_at 0 Idle)
        ≡ Replace (job_piece 0 3 site_a Online ∷ []) (job_piece 0 3 site_a Offline ∷ []) (JobPut (job_at 0 (Copying (At (int_key 3))))) }
    ensures last_batch { job_step (state_with (job_piece 0 3 site_b Online ∷ job_piece 3 10 site_a Online ∷ []) (1 ∷ 2 ∷ 3 ∷ [])) (job_at 3 Idle)
        ≡ Replace (job_piece 3 10 site_a Online ∷ []) (job_piece 3 10 site_a Offline ∷ []) (JobPut (job_at 3 (Copying (At (int_key 10))))) }
{}
