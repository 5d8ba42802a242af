// Laws on what a mount refuses. The functions do nothing: their contracts are the laws.
ghost use Rattle.kssd_image.specs.DamageLaws.{DamageIsOne, SoundIsWithoutDamage};

/// At most one damage applies to an image.
pub fn damage_is_one()
    ensures { DamageIsOne }
{}

/// An image is sound exactly where no damage applies, which is where it is clear of each kind.
pub fn sound_is_without_damage()
    ensures { SoundIsWithoutDamage }
{}
