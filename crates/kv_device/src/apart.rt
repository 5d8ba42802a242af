// Transactions beside one another. The functions do nothing: their contracts are laws.
ghost use Rattle.kv_device.specs.Apart.{OwnChangesSeen, OthersUnseen, LastEndWins};

/// A transaction sees its own changes, and else what stands.
pub fn own_changes_seen()
    ensures { OwnChangesSeen }
{}

/// It sees none of another's pending changes.
pub fn others_unseen()
    ensures { OthersUnseen }
{}

/// Of two transactions that change a key the one that ends last gives its value.
pub fn last_end_wins()
    ensures { LastEndWins }
{}
