//! Sectors laid over those of an image.
ghost use Rattle.std.specs.Prelude.{◌≡◌, ◌≤◌, ◌+◌, ◌*◌, length};
ghost use Rattle.std.specs.List.{AllByRecursion};
ghost use Rattle.volume_model.specs.Format.{overwritten};
ghost use Rattle.volume_model.specs.Crash.{IsInside, image_after};

use volume_model::DeviceCall;

// Puts whole sectors over those of an image, from sector `first` on.
pub(crate) fn put(image: &mut Vec<u8>, first: u64, bytes: &[u8])
    requires { 512 * first + length bytes.now ≤ length image.old.items }
    ensures { image.new.items ≡ overwritten image.old.items first bytes.now }
{
    let at = 512 * first as usize;
    image[at..at + bytes.len()].copy_from_slice(bytes);
}

// Lays the writes of calls over an image, in order.
pub(crate) fn lay(image: &mut Vec<u8>, calls: &[DeviceCall])
    requires { AllByRecursion (IsInside (length image.old.items)) calls.now }
    ensures { image.new.items ≡ image_after image.old.items calls.now }
{
    for call in calls {
        if let DeviceCall::Write { first, bytes } = call {
            put(image, *first, bytes.as_slice());
        }
    }
}
