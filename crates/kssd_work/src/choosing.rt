// The job that is due.
ghost use Rattle.kssd_work.specs.Working.{IsDue};

use kssd_collect::collection_due;
use kssd_levels::JobKind;
use kssd_mounted::Mounted;

/// The job that is due between calls: the flush of a frozen table or a merge, and else a collection.
pub fn due(mounted: &Mounted) -> Option<JobKind>
    ensures { IsDue mounted.now result }
{
    match mounted.index.due() {
        Some(kind) => Some(kind),
        None => {
            if collection_due(mounted) {
                Some(JobKind::Collect)
            } else {
                None
            }
        }
    }
}
