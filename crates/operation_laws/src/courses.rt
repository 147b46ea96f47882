//! A core goes on over a course of transactions that leaves what the stores stand for: it stays as it is, but for what happened.
ghost use Rattle.std.specs.Prelude.{◌≡◌, ◌++◌, ℕ, List, Some};
ghost use Rattle.cell_world.specs.Texts.{Text};
ghost use Rattle.cell_world.specs.Images.{Image, Happening, after_all};
ghost use Rattle.cell_world.specs.Plain.{Connections};
ghost use Rattle.cell_world.specs.declared.operations.Op.{Op};
ghost use Rattle.cell_world.specs.declared.operations.Reach.{Reach};
ghost use Rattle.plain_model.specs.Timelines.{Timeline, Past, image_of, facts_of, happened_of, history_of, past_of};
ghost use Rattle.plain_model.specs.Written.{Mode};
ghost use Rattle.session_laws.specs.Doing.{AllDoing, Live, live_of};
ghost use Rattle.session_laws.specs.Core.{Core, CoreAlone, SameGoing};
ghost use Rattle.session_laws.specs.Needs.{Needs};
ghost use Rattle.op_steps.specs.Passing.{IsCourse};
ghost use Rattle.op_steps.specs.Undoing.{UndoStepOf, AnyUndoStep};
ghost use Rattle.op_steps.specs.Clearing.{IsAbandonedInWay};
ghost use Rattle.op_steps.specs.Advancing.{SettlesAt};
ghost use Rattle.operation_laws.specs.Courses.{happened_on};
ghost use Rattle.operation_laws.specs.LiveNumbers.{AreTheLive};

/// After several things happened the stores are what they made of them, and the entries are those that there were.
pub fn happenings_follow()
    ensures stores { (start : Image) (past : Timeline) (hs : List Happening) → image_of start (happened_on past hs) ≡ after_all (image_of start past) hs }
    ensures happened { (past : Timeline) (hs : List Happening) → happened_of (happened_on past hs) ≡ happened_of past ++ hs }
    ensures entries { (past : Timeline) (hs : List Happening) → history_of (happened_on past hs) ≡ history_of past }
    ensures facts { (start : Image) (past : Timeline) (hs : List Happening) → facts_of start (happened_on past hs) ≡ facts_of start past }
    ensures states { (start : Image) (past : Timeline) (hs : List Happening) → past_of start (happened_on past hs) ≡ past_of start past }
    ensures joined { (past : Timeline) (hs gs : List Happening) → happened_on past (hs ++ gs) ≡ happened_on (happened_on past hs) gs }
{}

/// Operations in the way that no session has live are undone, in part or whole, wherever that stops.
pub fn undo_goes_on()
    ensures on_trail { (since : ℕ) (start : Image) (mode : Mode) (past : Timeline) (connections : Connections) (rest : Text) (doing : AllDoing) → Core Needs since start mode past connections rest doing →
        (live : List ℕ) → AreTheLive live doing → (reach : Reach) (hs : List Happening) → IsCourse (UndoStepOf (IsAbandonedInWay live reach)) (image_of start past) hs → Core Needs since start mode (happened_on past hs) connections rest doing }
    ensures alone { (first : Image) (past : Past) (connections : Connections) (image : Image) (doing : AllDoing) → CoreAlone Needs first past connections image doing →
        (live : List ℕ) → AreTheLive live doing → (reach : Reach) (hs : List Happening) → IsCourse (UndoStepOf (IsAbandonedInWay live reach)) image hs → CoreAlone Needs first past connections (after_all image hs) doing }
{}

/// Any logged operations are undone, where no session has one live: so when a core starts.
pub fn recovery_goes_on()
    ensures on_trail { (since : ℕ) (start : Image) (mode : Mode) (past : Timeline) (connections : Connections) (rest : Text) (doing : AllDoing) → Core Needs since start mode past connections rest doing →
        ((session : ℕ) (l : Live) → live_of (doing session) ≡ Some l → ⊥) → (hs : List Happening) → IsCourse AnyUndoStep (image_of start past) hs → Core Needs since start mode (happened_on past hs) connections rest doing }
    ensures alone { (first : Image) (past : Past) (connections : Connections) (image : Image) (doing : AllDoing) → CoreAlone Needs first past connections image doing →
        ((session : ℕ) (l : Live) → live_of (doing session) ≡ Some l → ⊥) → (hs : List Happening) → IsCourse AnyUndoStep image hs → CoreAlone Needs first past connections (after_all image hs) doing }
{}

/// An operation that is out of the log is settled, in part or whole. What a session has to settle may become another thing with it, while what is going, and what is live, stays.
pub fn settling_goes_on()
    ensures on_trail { (since : ℕ) (start : Image) (mode : Mode) (past : Timeline) (connections : Connections) (rest : Text) (doing : AllDoing) → Core Needs since start mode past connections rest doing →
        (op : Op) (hs : List Happening) → IsCourse (SettlesAt op) (image_of start past) hs → (next : AllDoing) → SameGoing doing next → ((session : ℕ) (l : Live) → live_of (next session) ≡ Some l → live_of (doing session) ≡ Some l) →
        Core Needs since start mode (happened_on past hs) connections rest next }
    ensures alone { (first : Image) (past : Past) (connections : Connections) (image : Image) (doing : AllDoing) → CoreAlone Needs first past connections image doing →
        (op : Op) (hs : List Happening) → IsCourse (SettlesAt op) image hs → (next : AllDoing) → SameGoing doing next → ((session : ℕ) (l : Live) → live_of (next session) ≡ Some l → live_of (doing session) ≡ Some l) →
        CoreAlone Needs first past connections (after_all image hs) next }
{}
