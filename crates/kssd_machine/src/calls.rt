// Laws on calls that change the lists of open transactions. The functions do nothing.
ghost use Rattle.kssd_machine.specs.Calling.{TransactionsAgree, RefusalsAgree, OutsideCausesAgree, ValuesStay};

/// A call on the lists of changes is that call of the device.
pub fn transactions_agree()
    ensures { TransactionsAgree }
{}

/// A call on the lists is refused where that call of the device is.
pub fn refusals_agree()
    ensures { RefusalsAgree }
{}

/// A call that isn't refused answers an outside cause of the device.
pub fn outside_causes_agree()
    ensures { OutsideCausesAgree }
{}

/// The pages that changes name hold their values, whatever call on the lists is made.
pub fn values_stay()
    ensures { ValuesStay }
{}
