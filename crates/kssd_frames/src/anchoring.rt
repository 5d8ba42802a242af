// Laws on what operations leave on the anchors' blocks. The functions do nothing.
ghost use Rattle.kssd_frames.specs.Anchoring.{AnchorsTakeOver, SoundStays};

/// Whatever operations on the anchors' blocks answer, the objects stay where the newest anchor does
/// or the one that comes shows the same.
pub fn anchors_take_over()
    ensures { AnchorsTakeOver }
{}

/// A sound image stays sound, and what stays twice stays.
pub fn sound_stays()
    ensures { SoundStays }
{}
