// Laws on a flash as a device. The functions do nothing.
ghost use Rattle.kssd_machine.specs.Machines.{MachineStays};
ghost use Rattle.kssd_machine.specs.Faults.{FaultsAgree};

/// The device stays where counts, objects and the pages that pending changes name stay; it is sound;
/// and it goes down and up again as the flash does.
pub fn machine_stays()
    ensures { MachineStays }
{}

/// A fault of the flash is one of the device.
pub fn faults_agree()
    ensures { FaultsAgree }
{}
