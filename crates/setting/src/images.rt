// Refusal 21: whether an image is of another setting.
ghost use Rattle.std.specs.Prelude.{◌≡◌};
ghost use Rattle.rules.specs.Facts.{Sound};
ghost use Rattle.rules.specs.Orders.{differs};

use rules::Setting;

// n or g differs from the setting.
pub fn differs(setting: Setting, image: &[u16]) -> bool
    requires { Sound image.now }
    ensures { result ≡ differs setting image.now }
{
    u64::from(image[0]) != setting.num_snakes || i32::from(image[1]) != setting.grid_size
}
