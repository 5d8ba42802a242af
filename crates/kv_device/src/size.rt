// How large a map of objects is.
ghost use Rattle.std.specs.Prelude.{◌≡◌, ◌≤◌, ◌<◌, ◌+◌, ◌^◌, option_copied};
ghost use Rattle.kv_device.specs.Sizes.{weight_at, one, large};

use kv_base::Value;

/// How many keys there are, and how many values that need a page of their own.
#[derive(Clone, Copy, Debug)]
pub struct Size {
    pub keys: usize,
    pub pages: usize,
}

impl Size {
    // With one more value, where there is one.
    pub fn with(self, value: Option<&Value>) -> Size
        requires keys { self.keys < 2 ^ 32 }
        requires pages { self.pages < 2 ^ 32 }
        ensures keys { result.keys ≡ self.keys + weight_at one (option_copied value.entry) }
        ensures pages { result.pages ≡ self.pages + weight_at large (option_copied value.entry) }
    {
        match value {
            Some(value) => Size {
                keys: self.keys + 1,
                pages: self.pages + usize::from(value.is_large()),
            },
            None => self,
        }
    }
}
