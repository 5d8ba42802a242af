// How many keys the transaction of a session has changed: a law, whose function does nothing.
ghost use Rattle.kfs_posix.specs.Bounds.{SessionsAreLight};

/// Between two calls the running of an up session is light: at most as many keys are changed as the changes
/// since the last boundary weigh, which is at most 255. What a call puts into a light running is small, as
/// `kfs_core::transactions_are_small` says, so no transaction of a session is ever committed with more
/// than 516 changed keys.
pub fn sessions_are_light()
    ensures { SessionsAreLight }
{}
