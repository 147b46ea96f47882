//! Examples of what a run has learnt, and of what a `peek` answers.
ghost use Rattle.std.specs.Prelude.{◌≡◌, ◌≤◌, ◌<◌, [], ◌∷◌, length, Some, None, codes};
ghost use Rattle.std.specs.FinMap as fin;
ghost use Rattle.cell_world.specs.declared.cells.Away.TheVariants.{Detached};
ghost use Rattle.cell_world.specs.declared.cells.KeyType.TheVariants.{Int};
ghost use Rattle.cell_world.specs.declared.cells.Status.TheVariants.{Online};
ghost use Rattle.plain_model.specs.Caches.{Cache, Learnt, learn, after_look, cache_after};
ghost use Rattle.plain_model.specs.declared.commands.Command.TheVariants as command;
ghost use Rattle.plain_model.specs.declared.replies.Refusal.TheVariants as refused;
ghost use Rattle.plain_model.specs.declared.replies.Reply.TheVariants as reply;
ghost use Rattle.plain_model.specs.Follows.{Follows, Drops};
ghost use Rattle.plain_model.specs.Worked.{small_key, small_range, mapping_over};
ghost use Rattle.model_examples.specs.Values.{answered, made, empty_state, owned_state, state_with_jobs, finished_state, learnt, open_5, opened, opened_past};
ghost use Rattle.world_examples.specs.Examples.{map_m, map_n, site_a, site_b, away_of};

/// What an `open` that looks for the owner of a key makes of the cache.
pub fn learning()
    ensures first { after_look [] fin.empty 3 map_m Int (small_key 5) (Some (mapping_over (small_range 0 10) Online)) ≡ learnt 0 10 3 ∷ [] }
    ensures hit { after_look (learnt 0 10 1 ∷ []) fin.empty 3 map_m Int (small_key 5) (Some (mapping_over (small_range 0 10) Online)) ≡ learnt 0 10 1 ∷ [] }
    ensures beside { after_look (learnt 10 20 1 ∷ []) fin.empty 3 map_m Int (small_key 5) (Some (mapping_over (small_range 0 10) Online)) ≡ learnt 0 10 3 ∷ learnt 10 20 1 ∷ [] }
    ensures overlapped { after_look (learnt 8 20 1 ∷ []) fin.empty 3 map_m Int (small_key 5) (Some (mapping_over (small_range 0 10) Online)) ≡ learnt 0 10 3 ∷ [] }
    ensures elsewhere { after_look (record (learnt 0 10 1) { location = site_b } ∷ []) fin.empty 3 map_m Int (small_key 5) (Some (mapping_over (small_range 0 10) Online)) ≡ learnt 0 10 3 ∷ [] }
    ensures at_a_site_that_is_away { after_look (learnt 0 10 1 ∷ []) (away_of ((site_a, Detached) ∷ [])) 3 map_m Int (small_key 5) (Some (mapping_over (small_range 0 10) Online)) ≡ learnt 0 10 3 ∷ [] }
    ensures owner_lost { after_look (learnt 0 10 1 ∷ learnt 10 20 2 ∷ []) fin.empty 3 map_m Int (small_key 5) None ≡ learnt 10 20 2 ∷ [] }
    ensures of_other_map { after_look (record (learnt 0 10 1) { map = map_n } ∷ []) fin.empty 3 map_m Int (small_key 5) (Some (mapping_over (small_range 0 10) Online)) ≡ learnt 0 10 3 ∷ record (learnt 0 10 1) { map = map_n } ∷ [] }
{}

/// A cache with 1,024 spans forgets all before it learns another.
pub fn full_caches()
    ensures full { (cache : Cache) (k : Learnt) → 1024 ≤ length cache → learn cache k ≡ k ∷ [] }
    ensures room { (cache : Cache) (k : Learnt) → length cache < 1024 → learn cache k ≡ k ∷ cache }
{}

/// What an entry makes of the cache.
pub fn cache_after_entries()
    ensures opened { cache_after [] owned_state 3 open_5 (Some (reply.At site_a)) ≡ learnt 0 10 3 ∷ [] }
    ensures offline_is_learnt_too { cache_after [] owned_state 3 open_5 (Some (reply.Refused refused.Offline)) ≡ learnt 0 10 3 ∷ [] }
    ensures number_in_use { cache_after [] owned_state 3 open_5 (Some (reply.Refused refused.NumberInUse)) ≡ [] }
    ensures faulted_open { cache_after [] owned_state 3 open_5 (Some reply.Fault) ≡ [] }
    ensures open_without_memory { cache_after [] owned_state 3 open_5 (Some reply.Memory) ≡ [] }
    ensures open_by_no_key { cache_after (learnt 0 10 1 ∷ []) owned_state 3 (command.Open 1 map_m (codes "x")) (Some (reply.Refused refused.BadKey)) ≡ learnt 0 10 1 ∷ [] }
    ensures open_in_no_map { cache_after (learnt 0 10 1 ∷ []) empty_state 3 open_5 (Some (reply.Refused refused.NoMap)) ≡ learnt 0 10 1 ∷ [] }
    ensures unmapped { cache_after (learnt 0 10 1 ∷ record (learnt 0 10 2) { map = map_n } ∷ []) owned_state 3 (command.Unmap map_m) (Some reply.Ok) ≡ record (learnt 0 10 2) { map = map_n } ∷ [] }
    ensures unmap_refused { cache_after (learnt 0 10 1 ∷ []) owned_state 3 (command.Unmap map_m) (Some (reply.Refused refused.MapInUse)) ≡ learnt 0 10 1 ∷ [] }
    ensures unmap_faulted { cache_after (learnt 0 10 1 ∷ []) owned_state 3 (command.Unmap map_m) (Some reply.Fault) ≡ [] }
    ensures another_command { cache_after (learnt 0 10 1 ∷ []) owned_state 3 (command.Find map_m (codes "5")) (Some reply.Unknown) ≡ learnt 0 10 1 ∷ [] }
{}

/// `unknown` answers a `peek` of a key that the cache has no span over, or of a word that is no key.
pub fn unknown()
    ensures nothing_learnt { Follows [] owned_state (answered 1 (command.Peek map_m (codes "5")) reply.Unknown) owned_state (Some reply.Unknown) }
    ensures no_key { Follows opened_past owned_state (answered 1 (command.Peek map_m (codes "x")) reply.Unknown) owned_state (Some reply.Unknown) }
    ensures beside { Follows opened_past owned_state (answered 1 (command.Peek map_m (codes "10")) reply.Unknown) owned_state (Some reply.Unknown) }
    ensures never_over_a_span { Follows opened_past owned_state (answered 1 (command.Peek map_m (codes "5")) reply.Unknown) owned_state (Some reply.Unknown) → ⊥ }
    ensures never_of_another_command { Follows [] owned_state (answered 1 (command.Find map_m (codes "5")) reply.Unknown) owned_state (Some reply.Unknown) → ⊥ }
{}

/// A known span was learnt in this run at its place, contains the key, and wasn't dropped by this session.
pub fn known()
    ensures learnt_before { Follows opened_past owned_state (answered 1 (command.Peek map_m (codes "7")) (reply.Known Int (small_range 0 10) site_a 0)) owned_state (Some (reply.Known Int (small_range 0 10) site_a 0)) }
    ensures dropped_by_another_session { Follows (made (answered 2 (command.Unmap map_m) reply.Ok) owned_state ∷ opened_past) owned_state (answered 1 (command.Peek map_m (codes "7")) (reply.Known Int (small_range 0 10) site_a 0)) owned_state (Some (reply.Known Int (small_range 0 10) site_a 0)) }
    ensures never_dropped_by_itself { Follows (made (answered 1 (command.Unmap map_m) reply.Ok) owned_state ∷ opened_past) owned_state (answered 1 (command.Peek map_m (codes "7")) (reply.Known Int (small_range 0 10) site_a 0)) owned_state (Some (reply.Known Int (small_range 0 10) site_a 0)) → ⊥ }
    ensures never_lost_by_itself { Follows (made (answered 1 open_5 (reply.Refused refused.NoMapping)) (state_with_jobs [] []) ∷ opened_past) (state_with_jobs [] []) (answered 1 (command.Peek map_m (codes "7")) (reply.Known Int (small_range 0 10) site_a 0)) (state_with_jobs [] []) (Some (reply.Known Int (small_range 0 10) site_a 0)) → ⊥ }
    ensures never_replaced_by_itself { Follows (made (answered 1 open_5 (reply.At site_b)) finished_state ∷ opened_past) finished_state (answered 1 (command.Peek map_m (codes "7")) (reply.Known Int (small_range 0 10) site_a 0)) finished_state (Some (reply.Known Int (small_range 0 10) site_a 0)) → ⊥ }
    ensures replaced_by_another_session { Follows (made (answered 2 open_5 (reply.At site_b)) finished_state ∷ opened_past) finished_state (answered 1 (command.Peek map_m (codes "7")) (reply.Known Int (small_range 0 10) site_a 0)) finished_state (Some (reply.Known Int (small_range 0 10) site_a 0)) }
    ensures never_what_was_not_learnt { Follows [] owned_state (answered 1 (command.Peek map_m (codes "7")) (reply.Known Int (small_range 0 10) site_a 0)) owned_state (Some (reply.Known Int (small_range 0 10) site_a 0)) → ⊥ }
    ensures never_at_another_place { Follows opened_past owned_state (answered 1 (command.Peek map_m (codes "7")) (reply.Known Int (small_range 0 10) site_a 1)) owned_state (Some (reply.Known Int (small_range 0 10) site_a 1)) → ⊥ }
    ensures never_another_span { Follows opened_past owned_state (answered 1 (command.Peek map_m (codes "7")) (reply.Known Int (small_range 0 20) site_a 0)) owned_state (Some (reply.Known Int (small_range 0 20) site_a 0)) → ⊥ }
    ensures never_another_location { Follows opened_past owned_state (answered 1 (command.Peek map_m (codes "7")) (reply.Known Int (small_range 0 10) site_b 0)) owned_state (Some (reply.Known Int (small_range 0 10) site_b 0)) → ⊥ }
    ensures never_of_a_key_beside { Follows opened_past owned_state (answered 1 (command.Peek map_m (codes "10")) (reply.Known Int (small_range 0 10) site_a 0)) owned_state (Some (reply.Known Int (small_range 0 10) site_a 0)) → ⊥ }
{}

/// An entry drops a span that is gone after it, one that overlaps what it learnt, and those of the map that it unmapped.
pub fn drops()
    ensures with_its_map { Drops (made (answered 1 (command.Unmap map_m) reply.Ok) owned_state) opened_past (learnt 0 10 0) }
    ensures with_its_owner { Drops (made (answered 1 open_5 (reply.Refused refused.NoMapping)) (state_with_jobs [] [])) opened_past (learnt 0 10 0) }
    ensures for_another { Drops (made (answered 1 open_5 (reply.At site_b)) finished_state) opened_past (learnt 0 10 0) }
    ensures for_another_where_it_was_forgotten { Drops (made (answered 1 open_5 (reply.At site_a)) owned_state) [] (learnt 5 20 0) }
    ensures never_by_a_refused_unmap { Drops (made (answered 1 (command.Unmap map_m) (reply.Refused refused.MapInUse)) owned_state) opened_past (learnt 0 10 0) → ⊥ }
    ensures never_by_another_command { Drops (made (answered 1 (command.Find map_m (codes "5")) reply.Unknown) owned_state) opened_past (learnt 0 10 0) → ⊥ }
{}
