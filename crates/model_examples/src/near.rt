//! Examples of states that are near.
ghost use Rattle.std.specs.Prelude.{[], ◌∷◌};
ghost use Rattle.cell_world.specs.declared.cells.Away.TheVariants.{Detached, Suspect};
ghost use Rattle.cell_world.specs.declared.cells.Status.TheVariants.{Online, Offline};
ghost use Rattle.plain_model.specs.Near.{Near};
ghost use Rattle.plain_model.specs.Worked.{small_range, local_row_over};
ghost use Rattle.model_examples.specs.Values.{empty_state, with_map, away_state, holding, local_rows, one_row};
ghost use Rattle.world_examples.specs.Examples.{map_n};

/// What a detached site holds is free, and at a suspect one how its local rows are cut.
pub fn near_states()
    ensures same { Near empty_state empty_state }
    ensures detached_holds_other { Near (holding (away_state Detached) one_row) (away_state Detached) }
    ensures suspect_cut_otherwise { Near
        (holding (away_state Suspect) (local_rows (local_row_over (small_range 0 10) Online ∷ [])))
        (holding (away_state Suspect) (local_rows (local_row_over (small_range 0 5) Online ∷ local_row_over (small_range 5 10) Online ∷ []))) }
    ensures never_where_it_is_attached { Near (holding empty_state one_row) empty_state → ⊥ }
    ensures never_a_row_more { Near (holding (away_state Suspect) one_row) (away_state Suspect) → ⊥ }
    ensures never_a_row_less { Near (away_state Suspect) (holding (away_state Suspect) one_row) → ⊥ }
    ensures never_another_status { Near
        (holding (away_state Suspect) (local_rows (local_row_over (small_range 0 10) Online ∷ [])))
        (holding (away_state Suspect) (local_rows (local_row_over (small_range 0 10) Offline ∷ []))) → ⊥ }
    ensures never_a_local_row_less { Near
        (holding (away_state Suspect) (local_rows (local_row_over (small_range 0 10) Online ∷ [])))
        (holding (away_state Suspect) (local_rows [])) → ⊥ }
    ensures never_a_map_more { Near (with_map empty_state map_n) empty_state → ⊥ }
    ensures never_another_site_state { Near (away_state Suspect) (away_state Detached) → ⊥ }
{}
