//! Groups of keys and axes, by the kernel's input codes.
ghost use Rattle.std.specs.Prelude.{◌≡◌};
ghost use Rattle.builtin_input.specs.Groups.{is_in};

/// A group of keys or axes, by the numbers that the kernel gives them.
#[derive(Clone, Copy)]
pub(crate) enum Group {
    /// The buttons of a mouse.
    MouseButton,
    /// The buttons of a joystick.
    JoystickButton,
    /// The absolute axes of a joystick except the first three.
    JoystickAxis,
    /// Keys that keyboards have, which distinguish them from joysticks.
    UsualKey,
    /// The keys from 1 to 31.
    FirstKey,
    /// Keys that are not buttons.
    Key,
}

/// Keys that keyboards have.
const USUAL_KEYS: [usize; 10] = [29, 58, 69, 110, 113, 140, 144, 155, 164, 224];

impl Group {
    /// Whether a number is one of the group.
    #[tactic(auto, unfolding(crate::specs::Groups::is_in))]
    pub(crate) fn contains(self, number: usize) -> bool
        ensures { result ≡ is_in self number }
    {
        match self {
            Group::MouseButton => 0x110 <= number && number <= 0x11F,
            Group::JoystickButton => {
                0x120 <= number && number <= 0x13F
                    || 0x220 <= number && number <= 0x223
                    || 0x2C0 <= number && number <= 0x2E7
            }
            Group::JoystickAxis => 3 <= number && number <= 0x17,
            Group::UsualKey => USUAL_KEYS.contains(&number),
            Group::FirstKey => 1 <= number && number <= 31,
            Group::Key => {
                number <= 0xFF
                    || 0x160 <= number && number <= 0x21F
                    || 0x230 <= number && number <= 0x2BF
            }
        }
    }
}
