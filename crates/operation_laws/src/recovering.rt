//! A core starts over stores that may hold a log.
ghost use Rattle.std.specs.Prelude.{◌≡◌, ℕ, List, [], None, Result, IsOk};
ghost use Rattle.std.specs.FinMap as map;
ghost use Rattle.cell_world.specs.Images.{Image, Happening, global, after_all};
ghost use Rattle.cell_world.specs.Meaning.{meaning};
ghost use Rattle.cell_world.specs.Plain.{nobody};
ghost use Rattle.cell_world.specs.Sound.{Sound};
ghost use Rattle.global_tables.specs.declared.faults.StepFault.{StepFault};
ghost use Rattle.plain_model.specs.Written.{Mode};
ghost use Rattle.session_laws.specs.Doing.{AllDoing, going_of};
ghost use Rattle.session_laws.specs.Core.{Core, CoreAlone};
ghost use Rattle.session_laws.specs.Needs.{Needs};
ghost use Rattle.op_steps.specs.Undoing.{Recovers};
ghost use Rattle.operation_laws.specs.Courses.{happened_on};

/// Recovery leaves sound stores that stand for the same, whether it succeeds or not, and with an empty log where it does.
pub fn recovery_leaves_the_meaning()
    ensures { (image : Image) → Sound image → (result : Result (Unit {0}) StepFault) (hs : List Happening) → Recovers (IsOk result) image hs →
        Sound (after_all image hs) × (meaning (after_all image hs) ≡ meaning image) × (IsOk result → (global (after_all image hs)).log ≡ map.empty) }
{}

/// A core that begins with sound stores, with whatever log, and recovers first: it goes on, with sessions that rest.
pub fn core_recovers_first()
    ensures on_trail { (start : Image) → Sound start → (result : Result (Unit {0}) StepFault) (hs : List Happening) → Recovers (IsOk result) start hs → (doing : AllDoing) → ((session : ℕ) → going_of (doing session) ≡ None) →
        (since : ℕ) (mode : Mode) → Core Needs since start mode (happened_on [] hs) nobody [] doing }
    ensures alone { (start : Image) → Sound start → (result : Result (Unit {0}) StepFault) (hs : List Happening) → Recovers (IsOk result) start hs → (doing : AllDoing) → ((session : ℕ) → going_of (doing session) ≡ None) →
        CoreAlone Needs start [] nobody (after_all start hs) doing }
{}
