//! The order of refusals: one law for each row of the command table, and what all refused commands have in common.
ghost use Rattle.std.specs.Prelude.{◌≡◌, ℕ, List, [], ◌∷◌, Option};
ghost use Rattle.cell_world.specs.Texts.{Text};
ghost use Rattle.cell_world.specs.Plain.{PlainState, Held};
ghost use Rattle.cell_world.specs.declared.cells.KeyType.{KeyType};
ghost use Rattle.cell_world.specs.declared.cells.MapKind.{MapKind};
ghost use Rattle.cell_world.specs.declared.cells.Token.{Token};
ghost use Rattle.plain_model.specs.declared.commands.Command.{Command};
ghost use Rattle.plain_model.specs.declared.commands.Command.TheVariants as command;
ghost use Rattle.plain_model.specs.declared.commands.HighText.{HighText};
ghost use Rattle.plain_model.specs.declared.commands.Side.TheVariants as side;
ghost use Rattle.plain_model.specs.declared.replies.Refusal.{Refusal};
ghost use Rattle.plain_model.specs.declared.replies.Refusal.TheVariants.{NoMap, MapExists, MapInUse, NoLocation, NotAShard, ShardExists, ShardInUse, WrongKind, BadRange, Overlap, NoMapping, NotOffline, SameStatus, Locked, BadSplit, NotMergeable, RowsPresent, Offline, Ended, NoTable, TableExists, Detached, Unresolved, Attached, DifferencesLeft, StrayRows, NoJob, Absent, SameShard, NumberInUse, Full, NoConnection, JobInProgress, BadKey};
ghost use Rattle.plain_model.specs.declared.replies.Reply.TheVariants as reply;
ghost use Rattle.plain_model.specs.Refusing.{checks, refusals_of, difference_count, stray_count};
ghost use Rattle.plain_model.specs.Steps.{plain_step};

/// A refused command leaves the state as it was, whichever command it is.
pub fn refused_changes_nothing()
    ensures { (held_then : Held) (s : PlainState) (i : ℕ) (c : Command) (r : Refusal) → (plain_step held_then s i c).1 ≡ reply.Refused r → (plain_step held_then s i c).0 ≡ s }
{}

/// Maps, their shards and their tables.
pub fn refusals_of_maps()
    ensures map_row { (s : PlainState) (i : ℕ) (name : Text) (kind : MapKind) (type : KeyType) → refusals_of (checks s i (command.Map name kind type)) ≡ MapExists ∷ Full ∷ [] }
    ensures unmap_row { (s : PlainState) (i : ℕ) (name : Text) → refusals_of (checks s i (command.Unmap name)) ≡ NoMap ∷ MapInUse ∷ [] }
    ensures shard_row { (s : PlainState) (i : ℕ) (name location : Text) → refusals_of (checks s i (command.Shard name location)) ≡ NoMap ∷ NoLocation ∷ Detached ∷ Unresolved ∷ ShardExists ∷ [] }
    ensures unshard_row { (s : PlainState) (i : ℕ) (name location : Text) → refusals_of (checks s i (command.Unshard name location)) ≡ NoMap ∷ NoLocation ∷ NotAShard ∷ Detached ∷ Unresolved ∷ ShardInUse ∷ [] }
    ensures table_row { (s : PlainState) (i : ℕ) (name table : Text) → refusals_of (checks s i (command.Table name table)) ≡ NoMap ∷ TableExists ∷ Full ∷ [] }
{}

/// Mappings. Where two sites are asked for, the owner's comes first.
pub fn refusals_of_mappings()
    ensures add_row { (s : PlainState) (i : ℕ) (name low : Text) (high : HighText) (location : Text) → refusals_of (checks s i (command.Add name low high location)) ≡ NoMap ∷ WrongKind ∷ BadKey ∷ BadRange ∷ NoLocation ∷ NotAShard ∷ Detached ∷ Unresolved ∷ Overlap ∷ [] }
    ensures addpoint_row { (s : PlainState) (i : ℕ) (name key location : Text) → refusals_of (checks s i (command.Addpoint name key location)) ≡ NoMap ∷ WrongKind ∷ BadKey ∷ NoLocation ∷ NotAShard ∷ Detached ∷ Unresolved ∷ Overlap ∷ [] }
    ensures delete_row { (s : PlainState) (i : ℕ) (name key : Text) (token : Option Token) → refusals_of (checks s i (command.Delete name key token)) ≡ NoMap ∷ BadKey ∷ NoMapping ∷ Detached ∷ Unresolved ∷ Locked ∷ NotOffline ∷ RowsPresent ∷ [] }
    ensures offline_row { (s : PlainState) (i : ℕ) (name key : Text) (token : Option Token) → refusals_of (checks s i (command.Offline name key token)) ≡ NoMap ∷ BadKey ∷ NoMapping ∷ Detached ∷ Unresolved ∷ Locked ∷ SameStatus ∷ [] }
    ensures online_row { (s : PlainState) (i : ℕ) (name key : Text) (token : Option Token) → refusals_of (checks s i (command.Online name key token)) ≡ NoMap ∷ BadKey ∷ NoMapping ∷ Detached ∷ Unresolved ∷ Locked ∷ SameStatus ∷ [] }
    ensures move_row { (s : PlainState) (i : ℕ) (name key location : Text) (token : Option Token) → refusals_of (checks s i (command.Move name key location token)) ≡ NoMap ∷ BadKey ∷ NoMapping ∷ Detached ∷ Unresolved ∷ Locked ∷ NoLocation ∷ NotAShard ∷ Detached ∷ Unresolved ∷ SameShard ∷ NotOffline ∷ RowsPresent ∷ [] }
    ensures split_row { (s : PlainState) (i : ℕ) (name key : Text) (token : Option Token) → refusals_of (checks s i (command.Split name key token)) ≡ NoMap ∷ WrongKind ∷ BadKey ∷ NoMapping ∷ Detached ∷ Unresolved ∷ Locked ∷ BadSplit ∷ [] }
    ensures merge_row { (s : PlainState) (i : ℕ) (name key : Text) (token : Option Token) → refusals_of (checks s i (command.Merge name key token)) ≡ NoMap ∷ WrongKind ∷ BadKey ∷ NoMapping ∷ Detached ∷ Unresolved ∷ Locked ∷ NotMergeable ∷ [] }
    ensures lock_row { (s : PlainState) (i : ℕ) (name key : Text) (token : Token) → refusals_of (checks s i (command.Lock name key token)) ≡ NoMap ∷ BadKey ∷ NoMapping ∷ Detached ∷ Unresolved ∷ Locked ∷ [] }
    ensures unlock_row { (s : PlainState) (i : ℕ) (name key : Text) (token : Token) → refusals_of (checks s i (command.Unlock name key token)) ≡ NoMap ∷ BadKey ∷ NoMapping ∷ Detached ∷ Unresolved ∷ SameStatus ∷ Locked ∷ [] }
{}

/// Questions to the global store and to the cache.
pub fn refusals_of_questions()
    ensures find_row { (s : PlainState) (i : ℕ) (name key : Text) → refusals_of (checks s i (command.Find name key)) ≡ NoMap ∷ BadKey ∷ NoMapping ∷ [] }
    ensures list_row { (s : PlainState) (i : ℕ) (name : Text) → refusals_of (checks s i (command.List name)) ≡ NoMap ∷ [] }
    ensures shards_row { (s : PlainState) (i : ℕ) (name : Text) → refusals_of (checks s i (command.Shards name)) ≡ NoMap ∷ [] }
    ensures peek_row { (s : PlainState) (i : ℕ) (name key : Text) → refusals_of (checks s i (command.Peek name key)) ≡ [] }
{}

/// Connections and the rows under them.
pub fn refusals_of_rows()
    ensures open_row { (s : PlainState) (i number : ℕ) (name key : Text) → refusals_of (checks s i (command.Open number name key)) ≡ NumberInUse ∷ NoMap ∷ BadKey ∷ NoMapping ∷ Detached ∷ Unresolved ∷ Offline ∷ [] }
    ensures close_row { (s : PlainState) (i number : ℕ) → refusals_of (checks s i (command.Close number)) ≡ NoConnection ∷ [] }
    ensures put_row { (s : PlainState) (i number : ℕ) (table : Text) (id : ℕ) (bytes : Text) → refusals_of (checks s i (command.Put number table id bytes)) ≡ NoConnection ∷ Ended ∷ NoTable ∷ [] }
    ensures get_row { (s : PlainState) (i number : ℕ) (table : Text) (id : ℕ) → refusals_of (checks s i (command.Get number table id)) ≡ NoConnection ∷ Ended ∷ NoTable ∷ Absent ∷ [] }
    ensures del_row { (s : PlainState) (i number : ℕ) (table : Text) (id : ℕ) → refusals_of (checks s i (command.Del number table id)) ≡ NoConnection ∷ Ended ∷ NoTable ∷ Absent ∷ [] }
{}

/// Recovery. `resolve` by the word of the shard has two refusals more than by the word of the global store.
pub fn refusals_of_recovery()
    ensures detach_row { (s : PlainState) (i : ℕ) (location : Text) → refusals_of (checks s i (command.Detach location)) ≡ NoLocation ∷ Detached ∷ JobInProgress ∷ [] }
    ensures attach_row { (s : PlainState) (i : ℕ) (location : Text) → refusals_of (checks s i (command.Attach location)) ≡ NoLocation ∷ Attached ∷ [] }
    ensures differences_row { (s : PlainState) (i : ℕ) (location name : Text) → refusals_of (checks s i (command.Differences location name)) ≡ NoLocation ∷ NoMap ∷ NotAShard ∷ Detached ∷ [] }
    ensures resolve_global_row { (s : PlainState) (i : ℕ) (location name : Text) (number : ℕ) → refusals_of (checks s i (command.Resolve location name number side.Global)) ≡ NoLocation ∷ NoMap ∷ NotAShard ∷ Detached ∷ Attached ∷ Absent ∷ [] }
    ensures resolve_shard_row { (s : PlainState) (i : ℕ) (location name : Text) (number : ℕ) → refusals_of (checks s i (command.Resolve location name number side.Shard)) ≡ NoLocation ∷ NoMap ∷ NotAShard ∷ Detached ∷ Attached ∷ Absent ∷ Locked ∷ Overlap ∷ [] }
    ensures discard_row { (s : PlainState) (i : ℕ) (location : Text) → refusals_of (checks s i (command.Discard location)) ≡ NoLocation ∷ Detached ∷ Attached ∷ [] }
    ensures clear_row { (s : PlainState) (i : ℕ) (location : Text) → refusals_of (checks s i (command.Clear location)) ≡ NoLocation ∷ Detached ∷ Attached ∷ DifferencesLeft (difference_count s location) ∷ StrayRows (stray_count s location) ∷ [] }
{}

/// Jobs. In `job` the owner's site comes before the target's, in `step` and `run` the source's.
pub fn refusals_of_jobs()
    ensures job_row { (s : PlainState) (i : ℕ) (name low : Text) (high : HighText) (location : Text) (batch : ℕ) → refusals_of (checks s i (command.Job name low high location batch)) ≡ NoMap ∷ WrongKind ∷ BadKey ∷ BadRange ∷ NoMapping ∷ Detached ∷ Unresolved ∷ Locked ∷ Offline ∷ NoLocation ∷ NotAShard ∷ Detached ∷ Unresolved ∷ SameShard ∷ Full ∷ [] }
    ensures step_row { (s : PlainState) (i number : ℕ) → refusals_of (checks s i (command.Step number)) ≡ NoJob ∷ Detached ∷ Unresolved ∷ Detached ∷ Unresolved ∷ [] }
    ensures run_row { (s : PlainState) (i number : ℕ) → refusals_of (checks s i (command.Run number)) ≡ NoJob ∷ Detached ∷ Unresolved ∷ Detached ∷ Unresolved ∷ [] }
{}
