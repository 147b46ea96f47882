//! Examples of lawful operations, and for each clause of lawful one that it refuses.
ghost use Rattle.std.specs.Prelude.{[], ◌∷◌};
ghost use Rattle.cell_world.specs.Lawful.{LawfulOn};
ghost use Rattle.cell_world.specs.declared.cells.Status.TheVariants.{Online, Offline};
ghost use Rattle.cell_world.specs.declared.cells.Away.TheVariants.{Detached, Suspect};
ghost use Rattle.cell_world.specs.declared.operations.Phase.TheVariants.{Idle, Copying, Moved};
ghost use Rattle.cell_world.specs.declared.operations.Extra.TheVariants.{None, JobPut, JobDrop};
ghost use Rattle.cell_world.specs.declared.spans.High.TheVariants.{At, Max};
ghost use Rattle.cell_world.specs.declared.spans.Span.TheVariants.{Range, Point};
ghost use Rattle.world_examples.specs.Examples.{int_key, range, map_m, map_n, site_a, site_b, free_piece, piece_of, point_piece, job_piece, job_at, no_pieces, one_piece, two_pieces, second_alone, op_on, add_at_a, add_of, delete_of, change_of, offline_for_b, maps_of, list_maps_m, shards_of, away_of, reading};

// ---- accepted, one of each shape

/// An add beside another mapping.
pub fn lawful_add()
    ensures { LawfulOn (reading (free_piece 5 10 site_b Offline ∷ []) [] [] []) (op_on 1 (range 0 5) no_pieces (one_piece (free_piece 0 5 site_a Online)) None) }
{}

/// A delete of an offline mapping, with rows beside it alone.
pub fn lawful_delete()
    ensures { LawfulOn (reading (free_piece 0 5 site_a Offline ∷ free_piece 5 10 site_a Online ∷ []) [] (5 ∷ 6 ∷ []) (1 ∷ [])) (op_on 1 (range 0 5) (one_piece (free_piece 0 5 site_a Offline)) no_pieces None) }
{}

/// A mapping goes offline, and comes online.
pub fn lawful_status()
    ensures offline { LawfulOn (reading (free_piece 0 5 site_a Online ∷ []) [] (1 ∷ []) []) (op_on 1 (range 0 5) (one_piece (free_piece 0 5 site_a Online)) (one_piece (free_piece 0 5 site_a Offline)) None) }
    ensures online { LawfulOn (reading (free_piece 0 5 site_a Offline ∷ []) [] (1 ∷ []) []) (op_on 1 (range 0 5) (one_piece (free_piece 0 5 site_a Offline)) (one_piece (free_piece 0 5 site_a Online)) None) }
{}

/// An offline mapping moves to a site that has its rows; beside it the sites differ.
pub fn lawful_move()
    ensures { LawfulOn (reading (free_piece 0 5 site_a Offline ∷ []) [] (1 ∷ 2 ∷ 7 ∷ []) (1 ∷ 2 ∷ []))
        (op_on 1 (range 0 5) (one_piece (free_piece 0 5 site_a Offline)) (one_piece (free_piece 0 5 site_b Offline)) None) }
{}

/// A mapping is split at a key.
pub fn lawful_split()
    ensures { LawfulOn (reading (free_piece 0 9 site_a Online ∷ []) [] [] []) (op_on 1 (range 0 9) (one_piece (free_piece 0 9 site_a Online)) (two_pieces (free_piece 0 4 site_a Online) (free_piece 4 9 site_a Online)) None) }
{}

/// Two neighbours are merged.
pub fn lawful_merge()
    ensures { LawfulOn (reading (free_piece 0 4 site_a Online ∷ free_piece 4 9 site_a Online ∷ []) [] [] [])
        (op_on 1 (range 0 9) (two_pieces (free_piece 0 4 site_a Online) (free_piece 4 9 site_a Online)) (one_piece (free_piece 0 9 site_a Online)) None) }
{}

/// In a list map a mapping is one key: an add beside another, and a delete.
pub fn lawful_points()
    ensures add { LawfulOn (record (reading (point_piece 5 site_b Online ∷ []) [] [] []) { maps = list_maps_m }) (add_of (point_piece 4 site_a Online)) }
    ensures delete { LawfulOn (record (reading (point_piece 5 site_b Offline ∷ []) [] [] (4 ∷ 6 ∷ [])) { maps = list_maps_m }) (delete_of (point_piece 5 site_b Offline)) }
{}

// ---- accepted, steps of a job

/// The last merge of a job of two batches: the cursor is at the end of the range, so no batch is to come.
pub fn lawful_last_merge()
    ensures { LawfulOn (reading (job_piece 0 5 site_b Online ∷ job_piece 5 10 site_b Online ∷ []) (job_at 10 Idle ∷ []) [] (1 ∷ 7 ∷ []))
        (op_on 1 (range 0 10) (two_pieces (job_piece 0 5 site_b Online) (job_piece 5 10 site_b Online)) (one_piece (job_piece 0 10 site_b Online)) None) }
{}

/// The steps of a batch, [0, 3): the split at its end, the offline, the move of the copied rows, and the online once the source is emptied.
pub fn lawful_steps_of_a_batch()
    ensures split { LawfulOn (reading (job_piece 0 10 site_a Online ∷ []) (job_at 0 Idle ∷ []) (1 ∷ 2 ∷ 3 ∷ []) [])
        (op_on 1 (range 0 10) (one_piece (job_piece 0 10 site_a Online)) (two_pieces (job_piece 0 3 site_a Online) (job_piece 3 10 site_a Online)) None) }
    ensures offline { LawfulOn (reading (job_piece 0 3 site_a Online ∷ job_piece 3 10 site_a Online ∷ []) (job_at 0 Idle ∷ []) (1 ∷ 2 ∷ 3 ∷ []) [])
        (op_on 1 (range 0 3) (one_piece (job_piece 0 3 site_a Online)) (one_piece (job_piece 0 3 site_a Offline)) (JobPut (job_at 0 (Copying (At (int_key 3)))))) }
    ensures moved { LawfulOn (reading (job_piece 0 3 site_a Offline ∷ job_piece 3 10 site_a Online ∷ []) (job_at 0 (Copying (At (int_key 3))) ∷ []) (1 ∷ 2 ∷ 3 ∷ []) (1 ∷ 2 ∷ []))
        (op_on 1 (range 0 3) (one_piece (job_piece 0 3 site_a Offline)) (one_piece (job_piece 0 3 site_b Offline)) (JobPut (job_at 0 (Moved (At (int_key 3)))))) }
    ensures online { LawfulOn (reading (job_piece 0 3 site_b Offline ∷ job_piece 3 10 site_a Online ∷ []) (job_at 0 (Moved (At (int_key 3))) ∷ []) (3 ∷ []) (1 ∷ 2 ∷ []))
        (op_on 1 (range 0 3) (one_piece (job_piece 0 3 site_b Offline)) (one_piece (job_piece 0 3 site_b Online)) (JobPut (job_at 3 Idle))) }
{}

// ---- refused, clause by clause: each breaks the clause that it stands under and no other, but where it is said

/// The map stands.
pub fn refused_without_its_map()
    ensures { LawfulOn (record (reading [] [] [] []) { maps = maps_of [] }) add_at_a → ⊥ }
{}

/// Each old mapping stands, in all fields.
pub fn refused_where_an_old_does_not_stand()
    ensures nothing { LawfulOn (reading [] [] [] []) (delete_of (free_piece 0 5 site_a Offline)) → ⊥ }
    ensures status { LawfulOn (reading (free_piece 0 5 site_a Online ∷ []) [] [] []) (delete_of (free_piece 0 5 site_a Offline)) → ⊥ }
    ensures location { LawfulOn (reading (free_piece 0 5 site_b Offline ∷ []) [] [] []) (delete_of (free_piece 0 5 site_a Offline)) → ⊥ }
    ensures end { LawfulOn (reading (free_piece 0 6 site_a Offline ∷ []) [] [] []) (delete_of (free_piece 0 5 site_a Offline)) → ⊥ }
    ensures token { LawfulOn (reading (job_piece 0 5 site_a Offline ∷ []) [] [] []) (delete_of (free_piece 0 5 site_a Offline)) → ⊥ }
{}

/// The old and the new mappings are of the operation's map.
pub fn refused_with_pieces_of_another_map()
    ensures old { LawfulOn (reading (record (piece_of map_n 0 5) { status = Offline } ∷ []) [] [] []) (delete_of (record (piece_of map_n 0 5) { status = Offline })) → ⊥ }
    ensures new { LawfulOn (reading [] [] [] []) (add_of (piece_of map_n 0 5)) → ⊥ }
{}

/// There is a second piece only beside a first.
pub fn refused_with_a_second_piece_alone()
    ensures old { LawfulOn (reading (free_piece 0 5 site_a Offline ∷ []) [] [] []) (op_on 1 (range 0 5) (second_alone (free_piece 0 5 site_a Offline)) no_pieces None) → ⊥ }
    ensures new { LawfulOn (reading [] [] [] []) (op_on 1 (range 0 5) no_pieces (second_alone (free_piece 0 5 site_a Online)) None) → ⊥ }
{}

/// Every site of the operation is attached, that of a job's target among them.
pub fn refused_where_a_site_is_away()
    ensures detached { LawfulOn (record (reading [] [] [] []) { away = away_of ((site_a, Detached) ∷ []) }) add_at_a → ⊥ }
    ensures suspect { LawfulOn (record (reading [] [] [] []) { away = away_of ((site_a, Suspect) ∷ []) }) add_at_a → ⊥ }
    ensures unknown { LawfulOn (record (reading [] [] [] []) { locations = site_b ∷ [] }) add_at_a → ⊥ }
    ensures target { LawfulOn (record (reading (job_piece 0 10 site_a Online ∷ []) (job_at 0 Idle ∷ []) [] []) { away = away_of ((site_b, Detached) ∷ []) }) offline_for_b → ⊥ }
{}

/// Each new location is a shard of the map.
pub fn refused_off_the_shards()
    ensures no_shard { LawfulOn (record (reading [] [] [] []) { shards = shards_of ((map_m, site_b) ∷ []) }) add_at_a → ⊥ }
    ensures of_another_map { LawfulOn (record (reading [] [] [] []) { shards = shards_of ((map_n, site_a) ∷ []) }) add_at_a → ⊥ }
{}

/// The new spans are of the map's kind and key type.
pub fn refused_spans()
    ensures empty { LawfulOn (reading [] [] [] []) (add_of (free_piece 5 5 site_a Online)) → ⊥ }
    ensures point { LawfulOn (reading [] [] [] []) (add_of (record (free_piece 0 5 site_a Online) { span = Point (int_key 3) })) → ⊥ }
    ensures range_of_a_list_map { LawfulOn (record (reading [] [] [] []) { maps = list_maps_m }) add_at_a → ⊥ }
    ensures short_key { LawfulOn (reading [] [] [] []) (add_of (record (free_piece 0 5 site_a Online) { span = Range (128 ∷ []) Max })) → ⊥ }
{}

/// The new mappings are disjoint. Two new ones that overlap are no split either.
pub fn refused_where_news_overlap()
    ensures { LawfulOn (reading (free_piece 0 9 site_a Online ∷ []) [] [] [])
        (op_on 1 (range 0 9) (one_piece (free_piece 0 9 site_a Online)) (two_pieces (free_piece 0 5 site_a Online) (free_piece 4 9 site_a Online)) None) → ⊥ }
{}

/// A new mapping overlaps none that isn't an old.
pub fn refused_over_another_mapping()
    ensures beside { LawfulOn (reading (free_piece 9 20 site_b Online ∷ []) [] [] []) add_at_a → ⊥ }
    ensures same { LawfulOn (reading (free_piece 0 10 site_a Online ∷ []) [] [] []) add_at_a → ⊥ }
    ensures point { LawfulOn (record (reading (point_piece 5 site_b Online ∷ []) [] [] []) { maps = list_maps_m }) (add_of (point_piece 5 site_a Online)) → ⊥ }
{}

/// The hull is the least span over the old and the new mappings.
pub fn refused_hulls()
    ensures greater { LawfulOn (reading [] [] [] []) (record add_at_a { hull = range 0 11 }) → ⊥ }
    ensures lesser { LawfulOn (reading [] [] [] []) (record add_at_a { hull = range 0 9 }) → ⊥ }
    ensures unbounded { LawfulOn (reading [] [] [] []) (record add_at_a { hull = Range (int_key 0) Max }) → ⊥ }
{}

/// A new mapping is online and without a token.
pub fn refused_adds()
    ensures offline { LawfulOn (reading [] [] [] []) (add_of (free_piece 0 5 site_a Offline)) → ⊥ }
    ensures token { LawfulOn (reading [] [] [] []) (add_of (job_piece 0 5 site_a Online)) → ⊥ }
{}

/// A deleted mapping is offline, and has no row under it.
pub fn refused_deletes()
    ensures online { LawfulOn (reading (free_piece 0 5 site_a Online ∷ []) [] [] []) (delete_of (free_piece 0 5 site_a Online)) → ⊥ }
    ensures rows { LawfulOn (reading (free_piece 0 5 site_a Offline ∷ []) [] (4 ∷ []) []) (delete_of (free_piece 0 5 site_a Offline)) → ⊥ }
{}

/// A change of status changes the status, and a move is one of an offline mapping, to where its rows are.
pub fn refused_changes()
    ensures nothing { LawfulOn (reading (free_piece 0 5 site_a Online ∷ []) [] [] []) (change_of (free_piece 0 5 site_a Online) (free_piece 0 5 site_a Online)) → ⊥ }
    ensures moved_online { LawfulOn (reading (free_piece 0 5 site_a Online ∷ []) [] [] []) (change_of (free_piece 0 5 site_a Online) (free_piece 0 5 site_b Online)) → ⊥ }
    ensures both { LawfulOn (reading (free_piece 0 5 site_a Offline ∷ []) [] [] []) (change_of (free_piece 0 5 site_a Offline) (free_piece 0 5 site_b Online)) → ⊥ }
    ensures token { LawfulOn (reading (free_piece 0 5 site_a Offline ∷ []) [] [] []) (change_of (free_piece 0 5 site_a Offline) (job_piece 0 5 site_a Online)) → ⊥ }
    ensures rows_missing { LawfulOn (reading (free_piece 0 5 site_a Offline ∷ []) [] (1 ∷ []) []) (change_of (free_piece 0 5 site_a Offline) (free_piece 0 5 site_b Offline)) → ⊥ }
    ensures other_rows { LawfulOn (reading (free_piece 0 5 site_a Offline ∷ []) [] [] (1 ∷ [])) (change_of (free_piece 0 5 site_a Offline) (free_piece 0 5 site_b Offline)) → ⊥ }
{}

/// A split cuts at one key, with the lower part first, and changes nothing else.
pub fn refused_splits()
    ensures gap { LawfulOn (reading (free_piece 0 9 site_a Online ∷ []) [] [] [])
        (op_on 1 (range 0 9) (one_piece (free_piece 0 9 site_a Online)) (two_pieces (free_piece 0 4 site_a Online) (free_piece 5 9 site_a Online)) None) → ⊥ }
    ensures turned { LawfulOn (reading (free_piece 0 9 site_a Online ∷ []) [] [] [])
        (op_on 1 (range 0 9) (one_piece (free_piece 0 9 site_a Online)) (two_pieces (free_piece 4 9 site_a Online) (free_piece 0 4 site_a Online)) None) → ⊥ }
    ensures status { LawfulOn (reading (free_piece 0 9 site_a Online ∷ []) [] [] [])
        (op_on 1 (range 0 9) (one_piece (free_piece 0 9 site_a Online)) (two_pieces (free_piece 0 4 site_a Online) (free_piece 4 9 site_a Offline)) None) → ⊥ }
{}

/// Two mappings are merged where they are neighbours that differ in nothing else.
pub fn refused_merges()
    ensures gap { LawfulOn (reading (free_piece 0 4 site_a Online ∷ free_piece 5 9 site_a Online ∷ []) [] [] [])
        (op_on 1 (range 0 9) (two_pieces (free_piece 0 4 site_a Online) (free_piece 5 9 site_a Online)) (one_piece (free_piece 0 9 site_a Online)) None) → ⊥ }
    ensures location { LawfulOn (reading (free_piece 0 4 site_a Online ∷ free_piece 4 9 site_b Online ∷ []) [] [] [])
        (op_on 1 (range 0 9) (two_pieces (free_piece 0 4 site_a Online) (free_piece 4 9 site_b Online)) (one_piece (free_piece 0 9 site_a Online)) None) → ⊥ }
{}

/// There is no other shape.
pub fn refused_shapes()
    ensures two_deletes { LawfulOn (reading (free_piece 0 4 site_a Offline ∷ free_piece 4 9 site_a Offline ∷ []) [] [] [])
        (op_on 1 (range 0 9) (two_pieces (free_piece 0 4 site_a Offline) (free_piece 4 9 site_a Offline)) no_pieces None) → ⊥ }
    ensures two_adds { LawfulOn (reading [] [] [] []) (op_on 1 (range 0 9) no_pieces (two_pieces (free_piece 0 4 site_a Online) (free_piece 4 9 site_a Online)) None) → ⊥ }
{}

/// An operation on mappings without a job's token puts no job, and no operation drops one: that isn't a step of a job either.
pub fn refused_jobs()
    ensures put { LawfulOn (reading [] [] [] []) (record add_at_a { extra = JobPut (job_at 0 Idle) }) → ⊥ }
    ensures dropped { LawfulOn (reading [] [] [] []) (record add_at_a { extra = JobDrop 1 }) → ⊥ }
{}

/// Two mappings of a job are merged only where the job's table demands it.
pub fn refused_merges_of_a_job()
    ensures not_due { LawfulOn (reading (job_piece 0 5 site_a Online ∷ job_piece 5 10 site_a Online ∷ []) (job_at 0 Idle ∷ []) [] [])
        (op_on 1 (range 0 10) (two_pieces (job_piece 0 5 site_a Online) (job_piece 5 10 site_a Online)) (one_piece (job_piece 0 10 site_a Online)) None) → ⊥ }
    ensures during_a_batch { LawfulOn (reading (job_piece 0 5 site_a Offline ∷ job_piece 5 10 site_a Offline ∷ []) (job_at 0 (Copying (At (int_key 5))) ∷ []) [] [])
        (op_on 1 (range 0 10) (two_pieces (job_piece 0 5 site_a Offline) (job_piece 5 10 site_a Offline)) (one_piece (job_piece 0 10 site_a Offline)) None) → ⊥ }
{}

/// The mappings of a job are changed by its next step alone, and by that as the table has it.
pub fn refused_steps_of_a_batch()
    ensures deleted { LawfulOn (reading (job_piece 0 5 site_a Offline ∷ []) (job_at 0 (Copying (At (int_key 5))) ∷ []) [] []) (delete_of (job_piece 0 5 site_a Offline)) → ⊥ }
    ensures split_past_the_range { LawfulOn (reading (job_piece 0 20 site_a Online ∷ []) (job_at 0 Idle ∷ []) [] [])
        (op_on 1 (range 0 20) (one_piece (job_piece 0 20 site_a Online)) (two_pieces (job_piece 0 12 site_a Online) (job_piece 12 20 site_a Online)) None) → ⊥ }
    ensures offline_below_its_end { LawfulOn (reading (job_piece 0 10 site_a Online ∷ []) (job_at 0 Idle ∷ []) [] [])
        (record (change_of (job_piece 0 10 site_a Online) (job_piece 0 10 site_a Offline)) { extra = JobPut (job_at 0 (Copying (At (int_key 3)))) }) → ⊥ }
    ensures moved_without_the_job { LawfulOn (reading (job_piece 0 5 site_a Offline ∷ []) (job_at 0 (Copying (At (int_key 5))) ∷ []) [] [])
        (change_of (job_piece 0 5 site_a Offline) (job_piece 0 5 site_b Offline)) → ⊥ }
    ensures online_before_the_move { LawfulOn (reading (job_piece 0 5 site_a Offline ∷ []) (job_at 0 (Copying (At (int_key 5))) ∷ []) [] [])
        (record (change_of (job_piece 0 5 site_a Offline) (job_piece 0 5 site_a Online)) { extra = JobPut (job_at 5 Idle) }) → ⊥ }
    ensures online_short_of_the_end { LawfulOn (reading (job_piece 0 5 site_b Offline ∷ []) (job_at 0 (Moved (At (int_key 5))) ∷ []) [] [])
        (record (change_of (job_piece 0 5 site_b Offline) (job_piece 0 5 site_b Online)) { extra = JobPut (job_at 4 Idle) }) → ⊥ }
    ensures source_not_emptied { LawfulOn (reading (job_piece 0 5 site_b Offline ∷ []) (job_at 0 (Moved (At (int_key 5))) ∷ []) (1 ∷ []) (1 ∷ []))
        (record (change_of (job_piece 0 5 site_b Offline) (job_piece 0 5 site_b Online)) { extra = JobPut (job_at 5 Idle) }) → ⊥ }
{}
