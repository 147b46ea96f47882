//! Laws of comparison, as contracts of functions that do nothing.
ghost use Rattle.std.specs.Prelude.{◌≡◌};
ghost use Rattle.cell_world.specs.ByteOrder.{byte_cmp};
ghost use Rattle.cell_world.specs.Comparing.{IsExact};
ghost use Rattle.cell_world.specs.Orders.{cell_cmp};
ghost use Rattle.cell_world.specs.Texts.{Text};
ghost use Rattle.cell_world.specs.contracts.names.NamePartialEq.TheImpl as name;
ghost use Rattle.cell_world.specs.contracts.locations.LocationPartialEq.TheImpl as location;
ghost use Rattle.cell_world.specs.contracts.key_texts.KeyTextPartialEq.TheImpl as key_text;
ghost use Rattle.cell_world.specs.contracts.norm_keys.NormKeyPartialEq.TheImpl as norm_key;
ghost use Rattle.cell_world.specs.contracts.spans.HighPartialEq.TheImpl as high;
ghost use Rattle.cell_world.specs.contracts.spans.SpanPartialEq.TheImpl as span;
ghost use Rattle.cell_world.specs.contracts.cells.KeyTypePartialEq.TheImpl as key_type;
ghost use Rattle.cell_world.specs.contracts.cells.MapKindPartialEq.TheImpl as map_kind;
ghost use Rattle.cell_world.specs.contracts.cells.StatusPartialEq.TheImpl as status;
ghost use Rattle.cell_world.specs.contracts.cells.TokenPartialEq.TheImpl as token;
ghost use Rattle.cell_world.specs.contracts.cells.SitePartialEq.TheImpl as site;
ghost use Rattle.cell_world.specs.contracts.cells.SiteStatePartialEq.TheImpl as site_state;
ghost use Rattle.cell_world.specs.contracts.cells.AwayPartialEq.TheImpl as away;
ghost use Rattle.cell_world.specs.contracts.cells.MarkPartialEq.TheImpl as mark;
ghost use Rattle.cell_world.specs.contracts.cells.CountersPartialEq.TheImpl as counters;
ghost use Rattle.cell_world.specs.contracts.cells.LocalRowPartialEq.TheImpl as local_row;
ghost use Rattle.cell_world.specs.contracts.cells.RowNamePartialEq.TheImpl as row_name;
ghost use Rattle.cell_world.specs.contracts.cells.CellKeyPartialEq.TheImpl as cell_key;
ghost use Rattle.cell_world.specs.contracts.operations.PiecePartialEq.TheImpl as piece;
ghost use Rattle.cell_world.specs.contracts.operations.PiecesPartialEq.TheImpl as pieces;
ghost use Rattle.cell_world.specs.contracts.operations.PhasePartialEq.TheImpl as phase;
ghost use Rattle.cell_world.specs.contracts.operations.JobRowPartialEq.TheImpl as job;
ghost use Rattle.cell_world.specs.contracts.operations.ExtraPartialEq.TheImpl as extra;
ghost use Rattle.cell_world.specs.contracts.operations.OpPartialEq.TheImpl as op;
ghost use Rattle.cell_world.specs.contracts.operations.ReachPartialEq.TheImpl as reach;
ghost use Rattle.cell_world.specs.contracts.operations.StageNamePartialEq.TheImpl as stage;
ghost use Rattle.cell_world.specs.contracts.names.NameOrd.TheImpl as ordered_name;
ghost use Rattle.cell_world.specs.contracts.locations.LocationOrd.TheImpl as ordered_location;
ghost use Rattle.cell_world.specs.contracts.norm_keys.NormKeyOrd.TheImpl as ordered_norm_key;
ghost use Rattle.cell_world.specs.contracts.cells.CellKeyOrd.TheImpl as ordered_cell_key;
ghost use Rattle.cell_world.specs.declared.cells.CellKey.{CellKey};

/// Two values of a type compare equal exactly where they are the same value.
pub fn equal_values_are_one()
    ensures names { IsExact name.ghosts.eq }
    ensures locations { IsExact location.ghosts.eq }
    ensures key_texts { IsExact key_text.ghosts.eq }
    ensures norm_keys { IsExact norm_key.ghosts.eq }
    ensures ends { IsExact high.ghosts.eq }
    ensures spans { IsExact span.ghosts.eq }
    ensures key_types { IsExact key_type.ghosts.eq }
    ensures map_kinds { IsExact map_kind.ghosts.eq }
    ensures statuses { IsExact status.ghosts.eq }
    ensures tokens { IsExact token.ghosts.eq }
    ensures sites { IsExact site.ghosts.eq }
    ensures site_states { IsExact site_state.ghosts.eq }
    ensures away { IsExact away.ghosts.eq }
    ensures marks { IsExact mark.ghosts.eq }
    ensures counters { IsExact counters.ghosts.eq }
    ensures local_rows { IsExact local_row.ghosts.eq }
    ensures row_names { IsExact row_name.ghosts.eq }
    ensures cell_keys { IsExact cell_key.ghosts.eq }
    ensures pieces { IsExact piece.ghosts.eq }
    ensures some_pieces { IsExact pieces.ghosts.eq }
    ensures phases { IsExact phase.ghosts.eq }
    ensures jobs { IsExact job.ghosts.eq }
    ensures extras { IsExact extra.ghosts.eq }
    ensures operations { IsExact op.ghosts.eq }
    ensures reaches { IsExact reach.ghosts.eq }
    ensures stage_names { IsExact stage.ghosts.eq }
{}

/// Texts and keys stand in byte order, a proper prefix first.
pub fn texts_stand_in_byte_order()
    ensures names { (a b : Text) → ordered_name.ghosts.cmp a b ≡ byte_cmp a b }
    ensures locations { (a b : Text) → ordered_location.ghosts.cmp a b ≡ byte_cmp a b }
    ensures norm_keys { (a b : Text) → ordered_norm_key.ghosts.cmp a b ≡ byte_cmp a b }
{}

/// The keys of cells stand in cell order.
pub fn cell_keys_stand_in_cell_order()
    ensures { (a b : CellKey) → ordered_cell_key.ghosts.cmp a b ≡ cell_cmp a b }
{}
