//! Examples of when a refusal holds, in small states: its condition at its bounds. In which order refusals are tried is a law of each row of the command table.
ghost use Rattle.std.specs.Prelude.{◌≡◌, [], ◌∷◌, Some, None, codes};
ghost use Rattle.cell_world.specs.Images.{Image, global};
ghost use Rattle.cell_world.specs.Sound.{Sound, HasShard, HasPiece, HasJob};
ghost use Rattle.cell_world.specs.Texts.{Text};
ghost use Rattle.cell_world.specs.declared.cells.Status.TheVariants.{Online, Offline};
ghost use Rattle.cell_world.specs.declared.operations.JobRow.{JobRow};
ghost use Rattle.cell_world.specs.declared.operations.Phase.TheVariants.{Idle};
ghost use Rattle.cell_world.specs.declared.operations.Piece.{Piece};
ghost use Rattle.plain_model.specs.Refusing.{refusal};
ghost use Rattle.plain_model.specs.declared.commands.Command.TheVariants as command;
ghost use Rattle.plain_model.specs.declared.commands.HighText.TheVariants as word;
ghost use Rattle.plain_model.specs.declared.commands.Side.TheVariants as side;
ghost use Rattle.plain_model.specs.declared.replies.Refusal.TheVariants as refused;
ghost use Rattle.model_examples.specs.Values.{fresh_state, copying_state, moved_state, holding_jobs, suspect_state, row_elsewhere, merge_5, job_on};
ghost use Rattle.world_examples.specs.Examples.{map_m, map_n, site_a, site_b, state_with, free_piece, job_piece, job_at};

/// `unshard` is refused where a mapping of the map is, and where a job of the map goes to, though no mapping is there yet.
pub fn shards_in_use()
    ensures by_a_mapping { refusal (state_with (free_piece 0 10 site_a Online ∷ []) []) 1 (command.Unshard map_m site_a) ≡ Some refused.ShardInUse }
    ensures by_a_target { refusal (holding_jobs (job_piece 0 10 site_a Online ∷ []) (job_at 0 Idle ∷ [])) 1 (command.Unshard map_m site_b) ≡ Some refused.ShardInUse }
    ensures not_without_the_job { refusal (holding_jobs (job_piece 0 10 site_a Online ∷ []) []) 1 (command.Unshard map_m site_b) ≡ None }
    ensures not_by_a_source { refusal (holding_jobs (job_piece 0 10 site_b Online ∷ []) (job_at 10 Idle ∷ [])) 1 (command.Unshard map_m site_a) ≡ None }
    ensures not_by_a_job_of_another_map { refusal (holding_jobs [] (record (job_at 0 Idle) { map = map_n } ∷ [])) 1 (command.Unshard map_m site_b) ≡ None }
{}

/// `resolve` by the word of the shard is refused where the mapping over the part at this site has a token, and where a mapping at another site is in the way, whatever its token.
/// The site holds a local row over [0, 10), online.
pub fn resolving()
    ensures locked { refusal (suspect_state (job_piece 0 10 site_a Offline ∷ [])) 1 (command.Resolve site_a map_m 1 side.Shard) ≡ Some refused.Locked }
    ensures locked_by_the_word_of_the_shard_alone { refusal (suspect_state (job_piece 0 10 site_a Offline ∷ [])) 1 (command.Resolve site_a map_m 1 side.Global) ≡ None }
    ensures free { refusal (suspect_state (free_piece 0 10 site_a Offline ∷ [])) 1 (command.Resolve site_a map_m 1 side.Shard) ≡ None }
    ensures overlap { refusal (suspect_state (free_piece 0 10 site_b Offline ∷ [])) 1 (command.Resolve site_a map_m 1 side.Shard) ≡ Some refused.Overlap }
    ensures overlap_whatever_the_token { refusal (suspect_state (job_piece 0 10 site_b Offline ∷ [])) 1 (command.Resolve site_a map_m 1 side.Shard) ≡ Some refused.Overlap }
    ensures overlap_of_one_key { refusal (suspect_state (free_piece 9 20 site_b Online ∷ [])) 1 (command.Resolve site_a map_m 1 side.Shard) ≡ Some refused.Overlap }
    ensures no_overlap_beside { refusal (suspect_state (free_piece 10 20 site_b Online ∷ [])) 1 (command.Resolve site_a map_m 1 side.Shard) ≡ None }
    ensures overlap_by_the_word_of_the_shard_alone { refusal (suspect_state (free_piece 0 10 site_b Offline ∷ [])) 1 (command.Resolve site_a map_m 1 side.Global) ≡ None }
    ensures without_a_second_difference { refusal (suspect_state (job_piece 0 10 site_a Offline ∷ [])) 1 (command.Resolve site_a map_m 2 side.Shard) ≡ Some refused.Absent }
{}

/// `job` needs one mapping that holds its whole range, which may end before the mapping does. [0, 10) and [10, 20) stand.
pub fn ranges_of_jobs()
    ensures whole { job_on (codes "0") (word.At (codes "10")) ≡ None }
    ensures inside { job_on (codes "3") (word.At (codes "7")) ≡ None }
    ensures past_the_mapping { job_on (codes "5") (word.At (codes "11")) ≡ Some refused.NoMapping }
    ensures past_the_last { job_on (codes "10") (word.At (codes "21")) ≡ Some refused.NoMapping }
    ensures without_an_end { job_on (codes "10") word.Max ≡ Some refused.NoMapping }
    ensures past_all { job_on (codes "20") (word.At (codes "21")) ≡ Some refused.NoMapping }
{}

/// `merge` needs a mapping that begins at the high end, with the same location, the same status and the same token.
pub fn merging()
    ensures mergeable { merge_5 None (free_piece 0 10 site_a Online ∷ free_piece 10 20 site_a Online ∷ []) ≡ None }
    ensures mergeable_with_a_token { merge_5 (Some (record { 0 = 1 })) (job_piece 0 10 site_a Online ∷ job_piece 10 20 site_a Online ∷ []) ≡ None }
    ensures none_there { merge_5 None (free_piece 0 10 site_a Online ∷ []) ≡ Some refused.NotMergeable }
    ensures a_gap { merge_5 None (free_piece 0 10 site_a Online ∷ free_piece 11 20 site_a Online ∷ []) ≡ Some refused.NotMergeable }
    ensures another_location { merge_5 None (free_piece 0 10 site_a Online ∷ free_piece 10 20 site_b Online ∷ []) ≡ Some refused.NotMergeable }
    ensures another_status { merge_5 None (free_piece 0 10 site_a Online ∷ free_piece 10 20 site_a Offline ∷ []) ≡ Some refused.NotMergeable }
    ensures a_token { merge_5 None (free_piece 0 10 site_a Online ∷ job_piece 10 20 site_a Online ∷ []) ≡ Some refused.NotMergeable }
    ensures no_token { merge_5 (Some (record { 0 = 1 })) (job_piece 0 10 site_a Online ∷ free_piece 10 20 site_a Online ∷ []) ≡ Some refused.NotMergeable }
    ensures another_token { merge_5 (Some (record { 0 = 1 })) (job_piece 0 10 site_a Online ∷ record (job_piece 10 20 site_a Online) { token = Some (record { 0 = 2 }) } ∷ []) ≡ Some refused.NotMergeable }
{}

/// `delete` and `move` are refused while a row stands under a key of the mapping, and not for a row of another map or of a key beside.
pub fn rows_in_the_way()
    ensures deleted { refusal (state_with (free_piece 0 10 site_a Offline ∷ []) (9 ∷ [])) 1 (command.Delete map_m (codes "5") None) ≡ Some refused.RowsPresent }
    ensures moved { refusal (state_with (free_piece 0 10 site_a Offline ∷ []) (0 ∷ [])) 1 (command.Move map_m (codes "5") site_b None) ≡ Some refused.RowsPresent }
    ensures not_of_another_map { refusal (row_elsewhere (free_piece 0 10 site_a Offline ∷ [])) 1 (command.Delete map_m (codes "5") None) ≡ None }
    ensures not_beside { refusal (state_with (free_piece 0 10 site_a Offline ∷ []) (10 ∷ [])) 1 (command.Delete map_m (codes "5") None) ≡ None }
{}

/// `detach` is refused at the source and at the target of a job while a batch of it is under way, in either phase.
pub fn jobs_in_progress()
    ensures source_of_a_copy { refusal copying_state 1 (command.Detach site_a) ≡ Some refused.JobInProgress }
    ensures target_of_a_copy { refusal copying_state 1 (command.Detach site_b) ≡ Some refused.JobInProgress }
    ensures source_after_the_move { refusal moved_state 1 (command.Detach site_a) ≡ Some refused.JobInProgress }
    ensures target_after_the_move { refusal moved_state 1 (command.Detach site_b) ≡ Some refused.JobInProgress }
    ensures not_the_source_while_idle { refusal fresh_state 1 (command.Detach site_a) ≡ None }
    ensures not_the_target_while_idle { refusal fresh_state 1 (command.Detach site_b) ≡ None }
{}

/// In a sound image a map without a shard has no mapping and no job, so `unmap` has neither to take away.
pub fn maps_without_a_shard()
    ensures no_mapping { (image : Image) → Sound image → (name : Text) → ((location : Text) → HasShard (global image).shards name location → ⊥) →
        (p : Piece) → HasPiece (global image).mappings p → p.map ≡ name → ⊥ }
    ensures no_job { (image : Image) → Sound image → (name : Text) → ((location : Text) → HasShard (global image).shards name location → ⊥) →
        (job : JobRow) → HasJob (global image).jobs job → job.map ≡ name → ⊥ }
{}
