//! Examples of sound images, and for each clause of sound some that it refuses.
ghost use Rattle.std.specs.Prelude.{◌+◌, ◌^◌, [], ◌∷◌, None, Some};
ghost use Rattle.std.specs.FinMap.{from_sorted};
ghost use Rattle.cell_world.specs.Images.{Image, global};
ghost use Rattle.cell_world.specs.Sound.{Sound, GlobalCells, AreMappings, JobCells};
ghost use Rattle.cell_world.specs.Stores.{IsKeyed, empty_store};
ghost use Rattle.cell_world.specs.declared.cells.Away.TheVariants.{Detached, Suspect};
ghost use Rattle.cell_world.specs.declared.cells.KeyType.TheVariants.{Int};
ghost use Rattle.cell_world.specs.declared.cells.MapKind.TheVariants as kind;
ghost use Rattle.cell_world.specs.declared.cells.Mark.TheVariants.{Plain, Old, New};
ghost use Rattle.cell_world.specs.declared.cells.Status.TheVariants.{Online, Offline};
ghost use Rattle.cell_world.specs.declared.operations.Extra.TheVariants as extra;
ghost use Rattle.cell_world.specs.declared.operations.Phase.TheVariants.{Idle, Copying, Moved};
ghost use Rattle.cell_world.specs.declared.spans.High.TheVariants.{At, Max};
ghost use Rattle.cell_world.specs.declared.spans.Span.TheVariants.{Range, Point};
ghost use Rattle.world_examples.specs.Examples.{int_key, range, map_m, map_n, table_t, site_a, site_b, free_piece, job_piece, job_at, local_row, row_of, no_pieces, one_piece, op_on, add_at_a, shards_of, tables_of, away_of, maps_m, shards_ab, mappings_of, maps_of};
ghost use Rattle.world_examples.specs.Sounds.{long_key, rows_with, global_with, global_at_rest, global_logged, image_at_rest, image_to_compare, image_detached, image_moving, image_logged, image_left, add_logged, LogCellsWith, LocalCellsWith, OnlineRowsWith, RowCellsWith, BatchRowsWith, SuspectSiteWith, JobCellsWith, IsBatchWith, IsCutOffWith, JobTokensWith};

// ---- whole images

/// A map with two shards and a table, two mappings with their local rows, and rows under them.
pub fn sound_at_rest()
    ensures { Sound image_at_rest }
{}

/// The same with a suspect site, whose local cells are others than the mappings there.
pub fn sound_with_a_suspect_site()
    ensures { Sound image_to_compare }
{}

/// The same with a detached site, of whose cells nothing is said.
pub fn sound_with_a_detached_site()
    ensures { Sound image_detached }
{}

/// A job in the midst of its second batch, of which one row is copied.
pub fn sound_with_a_job()
    ensures { Sound image_moving }
{}

/// A mapping that goes offline and one that is added, both in the log, with their marks.
pub fn sound_with_logged_operations()
    ensures { Sound image_logged }
{}

/// Where nothing is mapped, an online row that an operation left which is gone, under an add in the log.
pub fn sound_with_a_leftover()
    ensures { Sound image_left }
{}

// ---- refused: global cells

/// A shard cell or a table cell of a map that doesn't stand.
pub fn refused_without_a_map()
    ensures shards { GlobalCells (record global_at_rest { shards = shards_of ((map_m, site_a) ∷ (map_m, site_b) ∷ (map_n, site_a) ∷ []) }) → ⊥ }
    ensures tables { GlobalCells (record global_at_rest { tables = tables_of ((map_m, table_t) ∷ (map_n, table_t) ∷ []) }) → ⊥ }
{}

/// A counter at its last value, and counters out of their bounds.
pub fn bounds_of_counters()
    ensures last_accepted { GlobalCells (record global_at_rest { counter = Some (record { operation = 2 ^ 63; job = 1 }) }) }
    ensures no_operation { GlobalCells (record global_at_rest { counter = Some (record { operation = 0; job = 1 }) }) → ⊥ }
    ensures too_many { GlobalCells (record global_at_rest { counter = Some (record { operation = 2 ^ 63 + 1; job = 1 }) }) → ⊥ }
    ensures no_job { GlobalCells (record global_at_rest { counter = Some (record { operation = 1; job = 0 }) }) → ⊥ }
{}

/// Mappings that bind no span of the map, that are off its shards, or that overlap.
pub fn refused_mappings()
    ensures empty_span { GlobalCells (global_with (free_piece 5 5 site_a Online ∷ []) [] [] None) → ⊥ }
    ensures point { GlobalCells (global_with (record (free_piece 0 5 site_a Online) { span = Point (int_key 0) } ∷ []) [] [] None) → ⊥ }
    ensures on_shards { GlobalCells (record global_at_rest { shards = shards_of ((map_m, site_a) ∷ []) }) → ⊥ }
    ensures disjoint { GlobalCells (global_with (free_piece 0 6 site_a Online ∷ free_piece 5 10 site_b Online ∷ []) [] [] None) → ⊥ }
{}

/// Log cells that aren't lawful, that have a number which wasn't given, or whose hulls overlap.
pub fn refused_log_cells()
    ensures unlawful { LogCellsWith [] (op_on 1 (range 0 5) no_pieces (one_piece (free_piece 0 5 site_a Offline)) extra.None ∷ []) 2 → ⊥ }
    ensures numbered { LogCellsWith [] (add_at_a ∷ []) 1 → ⊥ }
    ensures hulls { LogCellsWith [] (add_at_a ∷ record add_at_a { number = 2 } ∷ []) 3 → ⊥ }
{}

/// What is used of mappings: each is under its own key and of its map's kind and key type, and those of a map are disjoint. It holds of those of a sound image.
pub fn mappings_in_order()
    ensures accepted { AreMappings maps_m (mappings_of (free_piece 0 5 site_a Online ∷ free_piece 5 10 site_b Offline ∷ [])) }
    ensures of_sound_images { (image : Image) → Sound image → AreMappings (global image).maps (global image).mappings }
    ensures misplaced { AreMappings maps_m (from_sorted (((map_m, int_key 1), free_piece 0 5 site_a Online) ∷ [])) → ⊥ }
    ensures empty_span { AreMappings maps_m (mappings_of (free_piece 5 5 site_a Online ∷ [])) → ⊥ }
    ensures disjoint { AreMappings maps_m (mappings_of (free_piece 0 6 site_a Online ∷ free_piece 5 10 site_b Online ∷ [])) → ⊥ }
{}

// ---- refused: local cells of an attached site

/// A local row that counts and is of no mapping here: of none, or of one at another site, over other keys, or of another status.
pub fn refused_where_a_row_counts()
    ensures of_none { LocalCellsWith [] [] 1 (local_row 0 5 0 Online Plain ∷ []) → ⊥ }
    ensures elsewhere { LocalCellsWith (free_piece 0 5 site_b Online ∷ []) [] 1 (local_row 0 5 0 Online Plain ∷ []) → ⊥ }
    ensures other_span { LocalCellsWith (free_piece 0 6 site_a Online ∷ []) [] 1 (local_row 0 5 0 Online Plain ∷ []) → ⊥ }
    ensures other_status { LocalCellsWith (free_piece 0 5 site_a Offline ∷ []) [] 1 (local_row 0 5 0 Online Plain ∷ []) → ⊥ }
    ensures new_row { LocalCellsWith [] [] 2 (local_row 0 5 1 Online New ∷ []) → ⊥ }
{}

/// A mapping without a row that counts, or with two.
pub fn refused_where_rows_do_not_fit_a_mapping()
    ensures no_row { LocalCellsWith (free_piece 0 5 site_a Online ∷ []) [] 1 [] → ⊥ }
    ensures old_row { LocalCellsWith (free_piece 0 5 site_a Online ∷ []) [] 2 (local_row 0 5 0 Online (Old 1) ∷ []) → ⊥ }
    ensures two_rows { LocalCellsWith (free_piece 0 5 site_a Online ∷ []) [] 2 (local_row 0 5 0 Online Plain ∷ local_row 0 5 1 Online Plain ∷ []) → ⊥ }
{}

/// A mark of a logged operation that has no such mapping here, and a number that wasn't given.
pub fn refused_marks()
    ensures old { LocalCellsWith (free_piece 0 5 site_a Online ∷ []) (add_logged ∷ []) 3 (local_row 0 5 0 Online (Old 2) ∷ []) → ⊥ }
    ensures new { LocalCellsWith [] (add_at_a ∷ []) 2 (local_row 0 5 1 Online New ∷ []) → ⊥ }
    ensures elsewhere { LocalCellsWith [] (add_logged ∷ []) 3 (local_row 5 10 2 Online New ∷ []) → ⊥ }
    ensures number_of_name { LocalCellsWith (free_piece 0 5 site_a Online ∷ []) [] 1 (local_row 0 5 1 Online Plain ∷ []) → ⊥ }
    ensures number_of_mark { LocalCellsWith [] [] 1 (local_row 0 5 0 Online (Old 1) ∷ []) → ⊥ }
{}

// ---- refused: online rows

/// A local row that is online and binds no span of the map, or keys that another site owns, or that nobody owns and no logged operation brings here.
pub fn refused_online_rows()
    ensures empty_span { OnlineRowsWith [] [] (local_row 5 5 0 Online Plain ∷ []) → ⊥ }
    ensures elsewhere { OnlineRowsWith (free_piece 0 5 site_b Online ∷ []) [] (local_row 0 5 0 Online Plain ∷ []) → ⊥ }
    ensures nobody { OnlineRowsWith [] [] (local_row 0 5 0 Online Plain ∷ []) → ⊥ }
    ensures coming_but_owned { OnlineRowsWith (free_piece 0 5 site_b Online ∷ []) (add_at_a ∷ []) (local_row 0 5 1 Online New ∷ []) → ⊥ }
    ensures coming_elsewhere { OnlineRowsWith [] (add_logged ∷ []) (local_row 5 10 2 Online New ∷ []) → ⊥ }
{}

// ---- refused: row cells

/// A row without its table, or under a key that the site doesn't own and that is in no batch in progress.
pub fn refused_row_cells()
    ensures no_table { RowCellsWith (free_piece 0 5 site_a Online ∷ []) [] ((record (row_of 1 1) { table = map_n }, []) ∷ []) → ⊥ }
    ensures nobody { RowCellsWith [] [] (rows_with (1 ∷ [])) → ⊥ }
    ensures elsewhere { RowCellsWith (free_piece 0 5 site_b Online ∷ []) [] (rows_with (1 ∷ [])) → ⊥ }
    ensures idle { RowCellsWith (free_piece 0 5 site_b Online ∷ []) (job_at 0 Idle ∷ []) (rows_with (1 ∷ [])) → ⊥ }
    ensures before_the_batch { RowCellsWith (free_piece 0 5 site_b Online ∷ []) (job_at 3 (Moved (At (int_key 5))) ∷ []) (rows_with (1 ∷ [])) → ⊥ }
{}

/// Rows of a batch: while it is copied the target has none that the source hasn't, and once it moved the other way round.
pub fn rows_of_a_batch()
    ensures copied { BatchRowsWith Copying (rows_with (1 ∷ 4 ∷ 5 ∷ [])) (rows_with (2 ∷ 4 ∷ [])) }
    ensures moved { BatchRowsWith Moved (rows_with (1 ∷ 4 ∷ [])) (rows_with (2 ∷ 4 ∷ 5 ∷ [])) }
    ensures copied_too_many { BatchRowsWith Copying (rows_with (4 ∷ [])) (rows_with (4 ∷ 5 ∷ [])) → ⊥ }
    ensures copied_otherwise { BatchRowsWith Copying (rows_with (4 ∷ [])) ((row_of 4 4, 1 ∷ []) ∷ []) → ⊥ }
    ensures moved_too_few { BatchRowsWith Moved (rows_with (4 ∷ 5 ∷ [])) (rows_with (4 ∷ [])) → ⊥ }
{}

// ---- refused: suspect sites

/// A local row at a suspect site that is marked or numbered, of a map that has no such shard, without a span of the map, or two that overlap.
pub fn refused_suspect_sites()
    ensures marked { SuspectSiteWith (shards_of ((map_m, site_b) ∷ [])) (local_row 0 5 0 Online (Old 1) ∷ []) → ⊥ }
    ensures numbered { SuspectSiteWith (shards_of ((map_m, site_b) ∷ [])) (local_row 0 5 1 Online Plain ∷ []) → ⊥ }
    ensures on_shards { SuspectSiteWith (shards_of ((map_m, site_a) ∷ [])) (local_row 0 5 0 Online Plain ∷ []) → ⊥ }
    ensures empty_span { SuspectSiteWith (shards_of ((map_m, site_b) ∷ [])) (local_row 5 5 0 Online Plain ∷ []) → ⊥ }
    ensures disjoint { SuspectSiteWith (shards_of ((map_m, site_b) ∷ [])) (local_row 0 6 0 Online Plain ∷ local_row 5 10 0 Online Plain ∷ []) → ⊥ }
{}

// ---- jobs

/// A job of no range map, over no span of it, with a cursor out of its range or of no key, to no shard, to where it comes from, or with a number that wasn't given.
pub fn refused_jobs()
    ensures no_map { JobCells (maps_of []) shards_ab (mappings_of (job_piece 0 10 site_a Online ∷ [])) 2 (job_at 0 Idle) → ⊥ }
    ensures list_map { JobCells (maps_of ((map_m, (kind.List, Int)) ∷ [])) shards_ab (mappings_of (job_piece 0 10 site_a Online ∷ [])) 2 (job_at 0 Idle) → ⊥ }
    ensures empty_range { JobCellsWith (job_piece 0 10 site_b Online ∷ []) (record (job_at 10 Idle) { low = int_key 10 }) → ⊥ }
    ensures cursor_form { JobCellsWith (record (job_piece 0 3 site_b Online) { span = Range (int_key 0) (At long_key) } ∷ record (job_piece 3 10 site_a Online) { span = Range long_key (At (int_key 10)) } ∷ [])
        (record (job_at 3 Idle) { cursor = At long_key }) → ⊥ }
    ensures target { JobCells maps_m (shards_of ((map_m, site_a) ∷ [])) (mappings_of (job_piece 0 10 site_a Online ∷ [])) 2 (job_at 0 Idle) → ⊥ }
    ensures one_site { JobCellsWith (job_piece 0 10 site_b Online ∷ []) (record (job_at 0 Idle) { source = site_b }) → ⊥ }
    ensures cursor_below { JobCellsWith (job_piece 2 10 site_a Online ∷ []) (record (job_at 0 Idle) { low = int_key 2 }) → ⊥ }
    ensures cursor_above { JobCellsWith (job_piece 0 12 site_b Online ∷ []) (job_at 12 Idle) → ⊥ }
    ensures numbered { JobCells maps_m shards_ab (mappings_of (job_piece 0 10 site_a Online ∷ [])) 1 (job_at 0 Idle) → ⊥ }
{}

/// A key of the job's range that nobody owns, or whose owner hasn't its token.
pub fn refused_tokens_of_a_range()
    ensures nobody { JobCellsWith (job_piece 0 5 site_a Online ∷ []) (job_at 0 Idle) → ⊥ }
    ensures no_token { JobCellsWith (free_piece 0 10 site_a Online ∷ []) (job_at 0 Idle) → ⊥ }
    ensures of_another_job { JobCells maps_m shards_ab (mappings_of (job_piece 0 10 site_a Online ∷ [])) 3 (record (job_at 0 Idle) { number = 2 }) → ⊥ }
{}

/// Keys below the cursor that aren't at the target or not online, and keys from it on, or from the batch's end on, that aren't at the source or not online.
pub fn refused_owners_of_a_range()
    ensures done_at_source { JobCellsWith (job_piece 0 3 site_a Online ∷ job_piece 3 10 site_a Online ∷ []) (job_at 3 Idle) → ⊥ }
    ensures done_offline { JobCellsWith (job_piece 0 3 site_b Offline ∷ job_piece 3 10 site_a Online ∷ []) (job_at 3 Idle) → ⊥ }
    ensures left_at_target { JobCellsWith (job_piece 0 10 site_b Online ∷ []) (job_at 0 Idle) → ⊥ }
    ensures left_offline { JobCellsWith (job_piece 0 10 site_a Offline ∷ []) (job_at 0 Idle) → ⊥ }
    ensures behind_the_batch { JobCellsWith (job_piece 0 3 site_a Offline ∷ job_piece 3 10 site_a Offline ∷ []) (job_at 0 (Copying (At (int_key 3)))) → ⊥ }
{}

/// Above its low key the job's range is cut off: a mapping of its map begins with it, and one ends at the cursor.
pub fn ranges_cut_off()
    ensures cut { IsCutOffWith (job_piece 0 3 site_b Online ∷ job_piece 3 10 site_a Online ∷ []) (job_at 3 Idle) }
    ensures two_parts { IsCutOffWith (job_piece 0 2 site_b Online ∷ job_piece 2 3 site_b Online ∷ job_piece 3 10 site_a Online ∷ []) (job_at 3 Idle) }
    ensures begins_before { IsCutOffWith (job_piece 0 3 site_b Online ∷ job_piece 3 10 site_a Online ∷ []) (record (job_at 3 Idle) { low = int_key 2 }) → ⊥ }
    ensures other_map { IsCutOffWith (record (job_piece 0 3 site_b Online) { map = map_n } ∷ []) (job_at 3 Idle) → ⊥ }
    ensures ends_after { IsCutOffWith (job_piece 0 5 site_b Online ∷ job_piece 5 10 site_a Online ∷ []) (job_at 3 Idle) → ⊥ }
    ensures begins_before_in_a_job { JobCellsWith (job_piece 0 3 site_b Online ∷ job_piece 3 10 site_a Online ∷ []) (record (job_at 3 Idle) { low = int_key 2 }) → ⊥ }
    ensures ends_after_in_a_job { JobCellsWith (job_piece 0 12 site_b Online ∷ []) (job_at 10 Idle) → ⊥ }
{}

/// A batch is one offline mapping, at the source while it is copied and at the target once it moved.
pub fn batches_in_progress()
    ensures copied { IsBatchWith (away_of []) (job_piece 3 6 site_a Offline ∷ job_piece 6 10 site_a Online ∷ []) (job_at 3 (Copying (At (int_key 6)))) }
    ensures last { IsBatchWith (away_of []) (job_piece 3 10 site_a Offline ∷ []) (job_at 3 (Copying (At (int_key 10)))) }
    ensures moved { IsBatchWith (away_of []) (job_piece 3 6 site_b Offline ∷ job_piece 6 10 site_a Online ∷ []) (job_at 3 (Moved (At (int_key 6)))) }
    ensures none { IsBatchWith (away_of ((site_b, Detached) ∷ [])) [] (job_at 3 Idle) }
{}

/// A batch that is empty or goes past the end, whose mapping isn't there, or is of another map, over other keys, online, or at the other site.
pub fn refused_batches()
    ensures empty { IsBatchWith (away_of []) (job_piece 3 3 site_a Offline ∷ []) (job_at 3 (Copying (At (int_key 3)))) → ⊥ }
    ensures past_the_end { IsBatchWith (away_of []) (job_piece 3 12 site_a Offline ∷ []) (job_at 3 (Copying (At (int_key 12)))) → ⊥ }
    ensures at_no_key { IsBatchWith (away_of []) [] (record (job_at 3 (Copying Max)) { high = Max; cursor = Max }) → ⊥ }
    ensures no_mapping { IsBatchWith (away_of []) [] (job_at 3 (Copying (At (int_key 6)))) → ⊥ }
    ensures other_map { IsBatchWith (away_of []) (record (job_piece 3 6 site_a Offline) { map = map_n } ∷ []) (job_at 3 (Copying (At (int_key 6)))) → ⊥ }
    ensures begins_before { IsBatchWith (away_of []) (job_piece 2 6 site_a Offline ∷ []) (job_at 3 (Copying (At (int_key 6)))) → ⊥ }
    ensures ends_after { IsBatchWith (away_of []) (job_piece 3 7 site_a Offline ∷ []) (job_at 3 (Copying (At (int_key 6)))) → ⊥ }
    ensures online { IsBatchWith (away_of []) (job_piece 3 6 site_a Online ∷ []) (job_at 3 (Copying (At (int_key 6)))) → ⊥ }
    ensures copied_at_target { IsBatchWith (away_of []) (job_piece 3 6 site_b Offline ∷ []) (job_at 3 (Copying (At (int_key 6)))) → ⊥ }
    ensures moved_at_source { IsBatchWith (away_of []) (job_piece 3 6 site_a Offline ∷ []) (job_at 3 (Moved (At (int_key 6)))) → ⊥ }
{}

/// A batch in progress has both sites attached.
pub fn refused_batches_with_a_site_away()
    ensures copied_from { IsBatchWith (away_of ((site_a, Detached) ∷ [])) (job_piece 3 6 site_a Offline ∷ []) (job_at 3 (Copying (At (int_key 6)))) → ⊥ }
    ensures copied_to { IsBatchWith (away_of ((site_b, Suspect) ∷ [])) (job_piece 3 6 site_a Offline ∷ []) (job_at 3 (Copying (At (int_key 6)))) → ⊥ }
    ensures moved_from { IsBatchWith (away_of ((site_a, Suspect) ∷ [])) (job_piece 3 6 site_b Offline ∷ []) (job_at 3 (Moved (At (int_key 6)))) → ⊥ }
    ensures moved_to { IsBatchWith (away_of ((site_b, Detached) ∷ [])) (job_piece 3 6 site_b Offline ∷ []) (job_at 3 (Moved (At (int_key 6)))) → ⊥ }
{}

/// A token below 2^64 is the number of a standing job of the mapping's map.
pub fn tokens_of_jobs()
    ensures of_a_job { JobTokensWith (job_piece 0 10 site_a Online ∷ []) (job_at 0 Idle ∷ []) }
    ensures free { JobTokensWith (free_piece 0 10 site_a Online ∷ []) [] }
    ensures of_no_job { JobTokensWith (record (free_piece 0 10 site_a Online) { token = Some (record { 0 = 2 ^ 64 }) } ∷ []) [] }
    ensures no_job { JobTokensWith (job_piece 0 10 site_a Online ∷ []) [] → ⊥ }
    ensures other_job { JobTokensWith (job_piece 0 10 site_a Online ∷ []) (record (job_at 0 Idle) { number = 2 } ∷ []) → ⊥ }
    ensures other_map { JobTokensWith (job_piece 0 10 site_a Online ∷ []) (record (job_at 0 Idle) { map = map_n } ∷ []) → ⊥ }
    ensures greatest { JobTokensWith (record (free_piece 0 10 site_a Online) { token = Some (record { 0 = 18446744073709551615 }) } ∷ []) [] → ⊥ }
{}

// ---- keys

/// A cell that stands under a key which isn't its own.
pub fn refused_keys()
    ensures mapping { IsKeyed (record empty_store { mappings = from_sorted (((map_m, int_key 1), free_piece 0 5 site_a Online) ∷ []) }) → ⊥ }
    ensures operation { IsKeyed (record empty_store { log = from_sorted ((2, add_at_a) ∷ []) }) → ⊥ }
    ensures job { IsKeyed (record empty_store { jobs = from_sorted ((2, job_at 0 Idle) ∷ []) }) → ⊥ }
    ensures local_row { IsKeyed (record empty_store { locals = from_sorted (((map_m, (int_key 0, 1)), local_row 0 5 0 Online Plain) ∷ []) }) → ⊥ }
{}
