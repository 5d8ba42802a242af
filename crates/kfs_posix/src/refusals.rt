// That the device refuses nothing of a session: laws, whose function does nothing.
ghost use Rattle.kfs_posix.specs.Refusals.{ReadingIsNeverRefused, CommittingIsNeverRefused, WorkingIsNeverRefused, MkdirIsNeverRefused, OpeningIsNeverRefused, WritingIsNeverRefused, PwriteIsNeverRefused, TruncateIsNeverRefused, FtruncateIsNeverRefused, UnlinkIsNeverRefused, RmdirIsNeverRefused, RenameIsNeverRefused, CloseIsNeverRefused};

/// Whatever an up session shows, none of its calls meets a full device or transaction, a value of a wrong
/// size, a transaction that isn't open, or too many that are: each fails by its own error, or since power,
/// the device or memory was missing. So the room that the errors speak of is the device's own.
pub fn nothing_is_refused()
    ensures reading { ReadingIsNeverRefused }
    ensures committing { CommittingIsNeverRefused }
    ensures working { WorkingIsNeverRefused }
    ensures mkdir { MkdirIsNeverRefused }
    ensures opening { OpeningIsNeverRefused }
    ensures writing { WritingIsNeverRefused }
    ensures pwrite { PwriteIsNeverRefused }
    ensures truncate { TruncateIsNeverRefused }
    ensures ftruncate { FtruncateIsNeverRefused }
    ensures unlink { UnlinkIsNeverRefused }
    ensures rmdir { RmdirIsNeverRefused }
    ensures rename { RenameIsNeverRefused }
    ensures close { CloseIsNeverRefused }
{}
