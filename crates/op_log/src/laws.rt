//! What leaves operations lawful, and how many sites they have. Each law is the contract of a function that does nothing.
ghost use Rattle.std.specs.Prelude.{◌≡◌, ◌+◌, ℕ, false};
ghost use Rattle.std.specs.FinMap as map;
ghost use Rattle.cell_world.specs.Images.{Image, global};
ghost use Rattle.cell_world.specs.Lawful.{Lawful};
ghost use Rattle.cell_world.specs.Marked.{committed_image};
ghost use Rattle.cell_world.specs.Meaning.{meaning, next_job};
ghost use Rattle.cell_world.specs.Operations as operation;
ghost use Rattle.cell_world.specs.Sound.{Sound, HasLog, HasJob};
ghost use Rattle.cell_world.specs.Stores.{Mappings, piece_key};
ghost use Rattle.cell_world.specs.Texts.{Text};
ghost use Rattle.cell_world.specs.declared.operations.JobRow.{JobRow};
ghost use Rattle.cell_world.specs.declared.operations.Piece.{Piece};
ghost use Rattle.cell_world.specs.declared.spans.High.{High};
ghost use Rattle.cell_world.specs.declared.operations.Op.{Op};
ghost use Rattle.cell_world.specs.declared.operations.Reach.{Reach};
ghost use Rattle.op_log.specs.JobChanges.{MayBegin, begun_job, of_job, begun_image, IsAtFinish, IsFreed, finished_image};
ghost use Rattle.op_log.specs.JobSiteChanges.{JobSiteChange};
ghost use Rattle.op_log.specs.ShortChanges.{ShortChange};
ghost use Rattle.op_log.specs.Sites.{AreAtMostTwo};

/// A lawful operation of a sound image has at most two sites, the other site of its job among them.
pub fn lawful_operations_have_two_sites()
    ensures { (image : Image) → Sound image → (op : Op) → Lawful image op → AreAtMostTwo (operation.sites_of op) }
{}

/// Whether two operations conflict doesn't depend on which of them is logged.
pub fn conflict_is_mutual()
    ensures { (op other : Op) → operation.conflicts (operation.reach_of op) other ≡ operation.conflicts (operation.reach_of other) op }
{}

/// Where two operations are lawful on one sound image and don't conflict, making the one, logged or not, leaves the other lawful.
pub fn operations_stay_lawful()
    ensures { (image : Image) → Sound image → (op other : Op) → Lawful image op → Lawful image other → operation.conflicts (operation.reach_of op) other ≡ false → Lawful (committed_image image op) other }
{}

/// A short change whose reach conflicts with no logged operation keeps a sound image sound. It leaves the log as it is, and each logged operation lawful.
pub fn short_changes_leave_operations_lawful()
    ensures sound { (image : Image) → Sound image → (reach : Reach) (after : Image) → ShortChange image reach after → ((op : Op) → HasLog (global image).log op → operation.conflicts reach op ≡ false) → Sound after }
    ensures log { (image : Image) (reach : Reach) (after : Image) → ShortChange image reach after → (global after).log ≡ (global image).log }
    ensures lawful { (image : Image) → Sound image → (reach : Reach) (after : Image) → ShortChange image reach after → ((op : Op) → HasLog (global image).log op → operation.conflicts reach op ≡ false) →
        (op : Op) → HasLog (global image).log op → Lawful after op }
{}

/// So a change that begins or finishes a job, or detaches a site.
pub fn job_and_site_changes_leave_operations_lawful()
    ensures sound { (image : Image) → Sound image → (reach : Reach) (after : Image) → JobSiteChange image reach after → ((op : Op) → HasLog (global image).log op → operation.conflicts reach op ≡ false) → Sound after }
    ensures log { (image : Image) (reach : Reach) (after : Image) → JobSiteChange image reach after → (global after).log ≡ (global image).log }
    ensures lawful { (image : Image) → Sound image → (reach : Reach) (after : Image) → JobSiteChange image reach after → ((op : Op) → HasLog (global image).log op → operation.conflicts reach op ≡ false) →
        (op : Op) → HasLog (global image).log op → Lawful after op }
{}

/// The beginning of a job puts its mapping with the lock, its job and the next number into the meaning, and nothing else. Its finish takes the lock from its mappings and the job away, and it leaves every lawful operation lawful, logged or not.
pub fn jobs_begin_and_finish()
    ensures begun { (image : Image) → Sound image → (p : Piece) (low : Text) (high : High) (target : Text) (batch : ℕ) → MayBegin image p low high target →
        meaning (begun_image image p low high target batch) ≡ record (meaning image) { mappings = map.insert (global image).mappings (piece_key p) (of_job image p); jobs = map.insert (global image).jobs (next_job image) (begun_job image p low high target batch); next_job = next_job image + 1 } }
    ensures finished { (image : Image) → Sound image → (job : JobRow) → HasJob (global image).jobs job → IsAtFinish image job → (after : Mappings) → IsFreed job.number (global image).mappings after →
        meaning (finished_image image job after) ≡ record (meaning image) { mappings = after; jobs = map.remove (global image).jobs job.number } }
    ensures lawful { (image : Image) → Sound image → (job : JobRow) → HasJob (global image).jobs job → IsAtFinish image job → (after : Mappings) → IsFreed job.number (global image).mappings after →
        (op : Op) → Lawful image op → Lawful (finished_image image job after) op }
{}
