// The functions do nothing: their contracts are laws.
ghost use Rattle.kfs_objects.specs.Laws.{ReadBack, OneKey};

/// What is written is read back.
pub fn read_back()
    ensures { ReadBack }
{}

/// No bytes are the key of two objects.
pub fn one_key()
    ensures { OneKey }
{}
