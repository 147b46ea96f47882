//! What stays tried and open as a run goes on. Each law is the contract of a function that does nothing.
ghost use Rattle.std.specs.Prelude.{◌≡◌, ◌≢◌, ◌⊎◌, ◌↔◌, ◌++◌, ◌∷◌, [], true, ℕ, Bool, List, Option, Some};
ghost use Rattle.cell_world.specs.Lists.{IsOneOf};
ghost use Rattle.cell_world.specs.Images.{Image, Place, Happening, Committed};
ghost use Rattle.cell_world.specs.Plain.{PlainState};
ghost use Rattle.cell_world.specs.declared.changes.Edit.{Edit};
ghost use Rattle.cell_world.specs.declared.operations.JobRow.{JobRow};
ghost use Rattle.cell_world.specs.declared.operations.Op.{Op};
ghost use Rattle.cell_world.specs.declared.operations.Piece.{Piece};
ghost use Rattle.plain_model.specs.declared.history.Entry.{Entry};
ghost use Rattle.plain_model.specs.Steps.{ended_under};
ghost use Rattle.plain_model.specs.Timelines.{Timeline, Happened, Entered, image_of, history_of};
ghost use Rattle.plain_model.specs.OnTrail.{logs_put, is_open, EndsIfTried};
ghost use Rattle.plain_model.specs.Legal.{IsMadeBy, NamesItsOwn};
ghost use Rattle.history_laws.specs.Purposes.{Purpose, OnImage, JobStep, OwnOf, Offlines, Serves, WasTriedFor, WasPutFor};

/// What was tried for a purpose stays tried for it: over what happens, over entries of other sessions, and over all that comes later but an entry of its session. What is tried now was tried.
pub fn tries_stay()
    ensures now { (start : Image) (session : ℕ) (purpose : Purpose) (past : Timeline) (place : Place) (change : List Edit) (took : Bool) (op : Op) → logs_put change ≡ op ∷ [] → Serves purpose (image_of start past) op →
        WasTriedFor start session purpose (Happened (Committed place change took) ∷ past) }
    ensures happened { (start : Image) (session : ℕ) (purpose : Purpose) (past : Timeline) (h : Happening) → WasTriedFor start session purpose past → WasTriedFor start session purpose (Happened h ∷ past) }
    ensures entered { (start : Image) (session : ℕ) (purpose : Purpose) (past : Timeline) (e : Entry) → e.session ≢ session → WasTriedFor start session purpose past →
        WasTriedFor start session purpose (Entered e ∷ past) }
    ensures later { (start : Image) (session : ℕ) (purpose : Purpose) (later past : Timeline) → ((e : Entry) → IsOneOf (history_of later) e → e.session ≢ session) → WasTriedFor start session purpose past →
        WasTriedFor start session purpose (later ++ past) }
{}

/// What was put for a purpose stays put for it in the same way. What is put now, by a commit that is made, was put.
pub fn puts_stay()
    ensures now { (start : Image) (session : ℕ) (purpose : Purpose) (past : Timeline) (place : Place) (change : List Edit) (op : Op) → logs_put change ≡ op ∷ [] → Serves purpose (image_of start past) op →
        WasPutFor start session purpose (Happened (Committed place change true) ∷ past) }
    ensures happened { (start : Image) (session : ℕ) (purpose : Purpose) (past : Timeline) (h : Happening) → WasPutFor start session purpose past → WasPutFor start session purpose (Happened h ∷ past) }
    ensures entered { (start : Image) (session : ℕ) (purpose : Purpose) (past : Timeline) (e : Entry) → e.session ≢ session → WasPutFor start session purpose past → WasPutFor start session purpose (Entered e ∷ past) }
    ensures later { (start : Image) (session : ℕ) (purpose : Purpose) (later past : Timeline) → ((e : Entry) → IsOneOf (history_of later) e → e.session ≢ session) → WasPutFor start session purpose past →
        WasPutFor start session purpose (later ++ past) }
{}

/// What was put was tried. What was tried, or put, for one purpose was so for each wider one; and what was tried was some operation, on some image, that serves the purpose.
pub fn tries_serve()
    ensures put { (start : Image) (session : ℕ) (purpose : Purpose) (past : Timeline) → WasPutFor start session purpose past → WasTriedFor start session purpose past }
    ensures put_wider { (start : Image) (session : ℕ) (few many : Purpose) (past : Timeline) → ((image : Image) (op : Op) → Serves few image op → Serves many image op) → WasPutFor start session few past →
        WasPutFor start session many past }
    ensures wider { (start : Image) (session : ℕ) (few many : Purpose) (past : Timeline) → ((image : Image) (op : Op) → Serves few image op → Serves many image op) → WasTriedFor start session few past →
        WasTriedFor start session many past }
    ensures some { (start : Image) (session : ℕ) (purpose : Purpose) (past : Timeline) → WasTriedFor start session purpose past →
        (image : Image) × (op : Op) × Serves purpose image op × WasTriedFor start session (OnImage image op) past }
{}

/// The purposes are what is asked of entries: a step of a job was made by an operation that was put as planned, an entry names its own operation, and a faulted `offline` ends connections where it was tried.
pub fn entries_have_purposes()
    ensures planned { (start : Image) (past : Timeline) (A B : PlainState) (e : Entry) (job : JobRow) (op : Op) → IsMadeBy start past A e B job op → WasPutFor start e.session (JobStep job.number op) past }
    ensures own { (start : Image) (past : Timeline) (A : PlainState) (e : Entry) → NamesItsOwn start past A e ↔ ((e.operation ≡ 0) ⊎ WasTriedFor start e.session (OwnOf e.operation A e.command) past) }
    ensures offlines { (start : Image) (past : Timeline) (A B : PlainState) (e : Entry) (p : Piece) →
        EndsIfTried start past e A B (Some p) ↔ (WasTriedFor start e.session (Offlines e.operation p) past → B.connections ≡ ended_under (Some p) A.connections) }
{}

/// A number that is open stays open: over what happens, over entries that name others, and over all that comes later but an entry that names it. What is tried now is open.
pub fn numbers_stay_open()
    ensures now { (past : Timeline) (place : Place) (change : List Edit) (took : Bool) (op : Op) → logs_put change ≡ op ∷ [] → is_open op.number (Happened (Committed place change took) ∷ past) ≡ true }
    ensures happened { (number : ℕ) (past : Timeline) (h : Happening) → is_open number past ≡ true → is_open number (Happened h ∷ past) ≡ true }
    ensures entered { (number : ℕ) (past : Timeline) (e : Entry) → e.operation ≢ number → is_open number past ≡ true → is_open number (Entered e ∷ past) ≡ true }
    ensures later { (number : ℕ) (later past : Timeline) → ((e : Entry) → IsOneOf (history_of later) e → e.operation ≢ number) → is_open number past ≡ true → is_open number (later ++ past) ≡ true }
{}
