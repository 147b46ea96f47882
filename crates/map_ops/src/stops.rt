//! Why there is no plan, of a call over the stores that gave nothing.
ghost use Rattle.std.specs.Prelude.{◌≡◌};

use global_tables::faults::StepFault;
use plain_model::plans::PlanStop;

/// The stop of a fault.
pub fn stop_of(fault: StepFault) -> PlanStop
    ensures store { fault ≡ StepFault.Store → result ≡ PlanStop.Store }
    ensures memory { fault ≡ StepFault.Memory → result ≡ PlanStop.Memory }
{
    match fault {
        StepFault::Store => PlanStop::Store,
        StepFault::Memory => PlanStop::Memory,
    }
}
