//! Examples of spans, of conflicts, and of what has a spelling.
ghost use Rattle.std.specs.Prelude.{◌≡◌, true, false, [], ◌∷◌};
ghost use Rattle.cell_world.specs.Keys.{contains, overlaps, before, end_below, lesser_end};
ghost use Rattle.cell_world.specs.KeyForms.{is_span_of};
ghost use Rattle.cell_world.specs.Operations.{conflicts, joined};
ghost use Rattle.cell_world.specs.Spelled.{is_spelled};
ghost use Rattle.cell_world.specs.declared.cells.Cell.TheVariants as cell;
ghost use Rattle.cell_world.specs.declared.cells.KeyType.TheVariants.{Int, Bytes};
ghost use Rattle.cell_world.specs.declared.cells.MapKind.TheVariants as kind;
ghost use Rattle.cell_world.specs.declared.cells.Status.TheVariants.{Online};
ghost use Rattle.cell_world.specs.declared.operations.Reach.TheVariants.{Nothing, Part, Shard, Whole};
ghost use Rattle.cell_world.specs.declared.operations.Extra.TheVariants as extra;
ghost use Rattle.cell_world.specs.declared.spans.High.TheVariants.{At, Max};
ghost use Rattle.cell_world.specs.declared.spans.Span.TheVariants.{Range, Point};
ghost use Rattle.world_examples.specs.Examples.{int_key, range, map_m, map_n, site_a, site_b, no_pieces, one_piece, two_pieces, second_alone, op_on, free_piece, piece_of, add_at_a, offline_for_b};

// ---- spans

/// A range holds its low key, and not its high end.
pub fn bounds_of_a_range()
    ensures low { contains (range 3 7) (int_key 3) ≡ true }
    ensures last { contains (range 3 7) (int_key 6) ≡ true }
    ensures below { contains (range 3 7) (int_key 2) ≡ false }
    ensures high { contains (range 3 7) (int_key 7) ≡ false }
{}

/// An unbounded range holds every key from its low key on, and nothing ends after it.
pub fn bounds_of_an_unbounded_range()
    ensures low { contains (Range (int_key 3) Max) (int_key 3) ≡ true }
    ensures above { contains (Range (int_key 3) Max) (int_key 255) ≡ true }
    ensures below { contains (Range (int_key 3) Max) (int_key 2) ≡ false }
    ensures last { end_below Max (At (int_key 3)) ≡ false }
    ensures not_itself { end_below Max Max ≡ false }
    ensures later { end_below (At (int_key 3)) Max ≡ true }
    ensures lesser { lesser_end Max (At (int_key 3)) ≡ At (int_key 3) }
{}

/// A point holds itself alone.
pub fn bounds_of_a_point()
    ensures itself { contains (Point (int_key 3)) (int_key 3) ≡ true }
    ensures below { contains (Point (int_key 3)) (int_key 2) ≡ false }
    ensures above { contains (Point (int_key 3)) (int_key 4) ≡ false }
{}

/// A proper prefix comes first, so the empty key is the least one.
pub fn prefixes_come_first()
    ensures prefix { before (1 ∷ []) (At (1 ∷ 0 ∷ [])) ≡ true }
    ensures longer { before (1 ∷ 0 ∷ []) (At (1 ∷ [])) ≡ false }
    ensures byte { before (1 ∷ 9 ∷ []) (At (2 ∷ [])) ≡ true }
    ensures empty { contains (Range [] (At (0 ∷ []))) [] ≡ true }
{}

/// Ranges that only touch don't overlap, and one key in both is enough.
pub fn ranges_overlap()
    ensures touching { overlaps (range 0 5) (range 5 9) ≡ false }
    ensures one_key { overlaps (range 0 6) (range 5 9) ≡ true }
    ensures inside { overlaps (range 0 9) (range 3 4) ≡ true }
    ensures around { overlaps (range 3 4) (range 0 9) ≡ true }
    ensures apart { overlaps (range 0 3) (range 5 9) ≡ false }
    ensures unbounded { overlaps (Range (int_key 5) Max) (Range (int_key 9) Max) ≡ true }
    ensures below_unbounded { overlaps (range 0 5) (Range (int_key 5) Max) ≡ false }
    ensures point { overlaps (range 0 5) (Point (int_key 4)) ≡ true }
    ensures point_at_end { overlaps (range 0 5) (Point (int_key 5)) ≡ false }
    ensures points { overlaps (Point (int_key 4)) (Point (int_key 4)) ≡ true }
    ensures other_points { overlaps (Point (int_key 4)) (Point (int_key 5)) ≡ false }
{}

/// A range map has ranges that hold a key, a list map has points, and both have keys of their type alone.
pub fn spans_of_maps()
    ensures range_of_ints { is_span_of kind.Range Int (range 0 5) ≡ true }
    ensures up_to_max { is_span_of kind.Range Int (Range (int_key 0) Max) ≡ true }
    ensures empty { is_span_of kind.Range Int (range 5 5) ≡ false }
    ensures upside_down { is_span_of kind.Range Int (range 6 5) ≡ false }
    ensures short_low { is_span_of kind.Range Int (Range (0 ∷ []) (At (int_key 5))) ≡ false }
    ensures long_high { is_span_of kind.Range Int (Range (int_key 5) (At (200 ∷ 0 ∷ 0 ∷ 0 ∷ 0 ∷ []))) ≡ false }
    ensures point_of_range_map { is_span_of kind.Range Int (Point (int_key 5)) ≡ false }
    ensures point_of_ints { is_span_of kind.List Int (Point (int_key 5)) ≡ true }
    ensures range_of_list_map { is_span_of kind.List Int (range 0 5) ≡ false }
    ensures last_zero { is_span_of kind.List Bytes (Point (7 ∷ 0 ∷ [])) ≡ false }
{}

/// The least span over two ranges goes from the lesser low key to the greater end.
pub fn hulls_of_two()
    ensures neighbours { joined (range 0 5) (range 5 9) ≡ range 0 9 }
    ensures turned { joined (range 5 9) (range 0 5) ≡ range 0 9 }
    ensures inside { joined (range 0 9) (range 3 4) ≡ range 0 9 }
    ensures unbounded { joined (Range (int_key 5) Max) (range 0 5) ≡ Range (int_key 0) Max }
{}

// ---- conflicts

/// What a command reaches, against a logged add of [0, 10) at `s/a`.
pub fn conflicts_with_an_add()
    ensures nothing { conflicts Nothing add_at_a ≡ false }
    ensures part { conflicts (Part map_m (range 9 20)) add_at_a ≡ true }
    ensures part_beside { conflicts (Part map_m (range 10 20)) add_at_a ≡ false }
    ensures part_of_other_map { conflicts (Part map_n (range 9 20)) add_at_a ≡ false }
    ensures point { conflicts (Part map_m (Point (int_key 9))) add_at_a ≡ true }
    ensures point_beside { conflicts (Part map_m (Point (int_key 10))) add_at_a ≡ false }
    ensures shard { conflicts (Shard map_m site_a) add_at_a ≡ true }
    ensures other_shard { conflicts (Shard map_m site_b) add_at_a ≡ false }
    ensures shard_of_other_map { conflicts (Shard map_n site_a) add_at_a ≡ false }
    ensures whole { conflicts (Whole site_a) add_at_a ≡ true }
    ensures other_site { conflicts (Whole site_b) add_at_a ≡ false }
{}

/// A job's step has both sites of the job, also where its mappings are all at one of them.
pub fn conflicts_with_a_job_step()
    ensures shard { conflicts (Shard map_m site_b) offline_for_b ≡ true }
    ensures whole { conflicts (Whole site_b) offline_for_b ≡ true }
{}

// ---- spellings

/// A log cell has a spelling where a second piece stands beside a first, and each piece is of the operation's map.
pub fn spelled_log_cells()
    ensures add { is_spelled (cell.Log add_at_a) ≡ true }
    ensures two { is_spelled (cell.Log (op_on 1 (range 0 9) (two_pieces (free_piece 0 5 site_a Online) (free_piece 5 9 site_a Online)) (one_piece (free_piece 0 9 site_a Online)) extra.None)) ≡ true }
    ensures second_old_alone { is_spelled (cell.Log (op_on 1 (range 0 9) (second_alone (free_piece 0 9 site_a Online)) no_pieces extra.None)) ≡ false }
    ensures second_new_alone { is_spelled (cell.Log (op_on 1 (range 0 9) no_pieces (second_alone (free_piece 0 9 site_a Online)) extra.None)) ≡ false }
    ensures old_of_other_map { is_spelled (cell.Log (op_on 1 (range 0 9) (one_piece (piece_of map_n 0 9)) no_pieces extra.None)) ≡ false }
    ensures new_of_other_map { is_spelled (cell.Log (op_on 1 (range 0 9) no_pieces (one_piece (piece_of map_n 0 9)) extra.None)) ≡ false }
    ensures other_cell { is_spelled (cell.Piece (piece_of map_n 0 9)) ≡ true }
{}
