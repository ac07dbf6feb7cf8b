//! The kinds of input devices.
ghost use Rattle.std.specs.Prelude.{◌≡◌, IfOk};
ghost use Rattle.builtin_input.specs.Kinds.{has_keys, is_accelerometer, is_joystick, is_keyboard, is_mouse, is_of};
ghost use Rattle.builtin_input.specs.Kinds.{is_plain_mouse, is_pointer, is_pointing_stick, is_tablet, is_tablet_pad};
ghost use Rattle.builtin_input.specs.Kinds.{is_touchpad, is_touchscreen, kinds, may_be_joystick, property_of};

use crate::capabilities::Capabilities;
use crate::groups::Group;
use crate::signs::{KEY_EVENT, SWITCH_EVENT, Z};
use std::alloc::{AllocError, Global};

/// A kind of input device.
#[derive(Clone, Copy)]
pub(crate) enum Kind {
    Accelerometer,
    PointingStick,
    Mouse,
    Touchpad,
    Touchscreen,
    Joystick,
    Tablet,
    TabletPad,
    Key,
    Keyboard,
    Switch,
}

/// The kinds in the order in which they are reported.
const KINDS: [Kind; 11] = [
    Kind::Accelerometer,
    Kind::PointingStick,
    Kind::Mouse,
    Kind::Touchpad,
    Kind::Touchscreen,
    Kind::Joystick,
    Kind::Tablet,
    Kind::TabletPad,
    Kind::Key,
    Kind::Keyboard,
    Kind::Switch,
];

/// The property of an accelerometer.
const ACCELEROMETER: usize = 6;
/// The property of a pointing stick.
const POINTING_STICK: usize = 5;
/// The number of the bus I2C.
const I2C_BUS: u64 = 0x18;

impl Capabilities {
    /// Whether it is an accelerometer.
    #[tactic(auto, unfolding(crate::specs::Kinds::is_accelerometer))]
    fn is_accelerometer(&self) -> bool
        ensures { result ≡ is_accelerometer self.now }
    {
        self.properties.has(ACCELEROMETER)
            || !self.events.has(KEY_EVENT) && self.has_position() && self.absolute_axes.has(Z)
    }

    /// Whether it is a tablet.
    #[tactic(auto, unfolding(crate::specs::Kinds::is_tablet))]
    fn is_tablet(&self) -> bool
        ensures { result ≡ is_tablet self.now }
    {
        (self.has_position() || self.has_multitouch()) && self.takes_pen()
            || self.has_pad_buttons() && self.has_wheel() && !self.has_motion()
    }

    /// Whether it is the buttons of a tablet.
    #[tactic(auto, unfolding(crate::specs::Kinds::is_tablet_pad))]
    fn is_tablet_pad(&self) -> bool
        ensures { result ≡ is_tablet_pad self.now }
    {
        self.is_tablet() && self.has_pad_buttons()
    }

    /// Whether it is a touchpad.
    #[tactic(auto, unfolding(crate::specs::Kinds::is_touchpad))]
    fn is_touchpad(&self) -> bool
        ensures { result ≡ is_touchpad self.now }
    {
        (self.has_position() || self.has_multitouch()) && self.takes_finger()
    }

    /// Whether it is a touchscreen.
    #[tactic(auto, unfolding(crate::specs::Kinds::is_touchscreen))]
    fn is_touchscreen(&self) -> bool
        ensures { result ≡ is_touchscreen self.now }
    {
        !self.takes_pen()
            && !self.takes_finger()
            && self.takes_touch()
            && (self.has_multitouch() || self.has_position() && !self.has_mouse_buttons())
    }

    /// Whether it may be a joystick.
    #[tactic(auto, unfolding(crate::specs::Kinds::may_be_joystick))]
    fn may_be_joystick(&self) -> bool
        ensures { result ≡ may_be_joystick self.now }
    {
        self.joystick_parts() != 0
            && !(self.has_position()
                && (self.takes_pen()
                    || self.takes_finger()
                    || self.has_mouse_buttons()
                    || self.takes_touch()))
    }

    /// Whether it is a joystick.
    #[tactic(auto, unfolding(crate::specs::Kinds::is_joystick))]
    fn is_joystick(&self) -> bool
        ensures { result ≡ is_joystick self.now }
    {
        self.may_be_joystick()
            && self.joystick_parts() >= 2
            && !self.has_usual_keys()
            && !(self.has_wheel() && self.has_pad_buttons())
    }

    /// Whether it is a mouse by its buttons, and nothing else.
    #[tactic(auto, unfolding(crate::specs::Kinds::is_plain_mouse))]
    fn is_plain_mouse(&self) -> bool
        ensures { result ≡ is_plain_mouse self.now }
    {
        self.has_mouse_buttons()
            && !(self.is_tablet() || self.is_touchpad() || self.may_be_joystick())
            && (self.has_motion() || !self.has_position())
    }

    /// Whether it is a mouse.
    #[tactic(auto, unfolding(crate::specs::Kinds::is_mouse))]
    fn is_mouse(&self) -> bool
        ensures { result ≡ is_mouse self.now }
    {
        self.is_plain_mouse()
            || self.has_position()
                && self.has_mouse_buttons()
                && !self.takes_pen()
                && !self.takes_finger()
    }

    /// Whether it is a pointing stick.
    #[tactic(auto, unfolding(crate::specs::Kinds::is_pointing_stick))]
    fn is_pointing_stick(&self) -> bool
        ensures { result ≡ is_pointing_stick self.now }
    {
        self.properties.has(POINTING_STICK) || self.is_plain_mouse() && self.bus == I2C_BUS
    }

    /// Whether it is of a kind that points.
    #[tactic(auto, unfolding(crate::specs::Kinds::is_pointer))]
    fn is_pointer(&self) -> bool
        ensures { result ≡ is_pointer self.now }
    {
        self.is_accelerometer()
            || self.is_pointing_stick()
            || self.is_mouse()
            || self.is_touchpad()
            || self.is_touchscreen()
            || self.is_joystick()
            || self.is_tablet()
    }

    /// Whether it has keys that are not buttons.
    #[tactic(auto, unfolding(crate::specs::Kinds::has_keys))]
    fn has_keys(&self) -> bool
        ensures { result ≡ has_keys self.now }
    {
        self.events.has(KEY_EVENT) && self.keys.count(Group::Key) >= 1
    }

    /// Whether it is a keyboard.
    #[tactic(auto, unfolding(crate::specs::Kinds::is_keyboard))]
    fn is_keyboard(&self) -> bool
        ensures { result ≡ is_keyboard self.now }
    {
        self.events.has(KEY_EVENT) && self.keys.count(Group::FirstKey) == 31
    }

    /// The kinds of a device, in the order in which they are reported.
    #[tactic(auto, unfolding(crate::specs::Kinds::kinds))]
    pub(crate) fn kinds(&self, alloc: Global) -> Result<Vec<Kind>, AllocError>
        ensures { IfOk result (λ k. k.items ≡ kinds self.now) }
    {
        KINDS
            .iter()
            .copied()
            .filter(|kind| kind.is_of(self))
            .collect(alloc)
    }
}

impl Kind {
    /// Whether a device is of the kind.
    #[tactic(auto, unfolding(crate::specs::Kinds::is_of))]
    fn is_of(self, device: &Capabilities) -> bool
        ensures { result ≡ is_of self device.now }
    {
        match self {
            Kind::Accelerometer => device.is_accelerometer(),
            Kind::PointingStick => !device.is_accelerometer() && device.is_pointing_stick(),
            Kind::Mouse => !device.is_accelerometer() && device.is_mouse(),
            Kind::Touchpad => !device.is_accelerometer() && device.is_touchpad(),
            Kind::Touchscreen => !device.is_accelerometer() && device.is_touchscreen(),
            Kind::Joystick => !device.is_accelerometer() && device.is_joystick(),
            Kind::Tablet => !device.is_accelerometer() && device.is_tablet(),
            Kind::TabletPad => !device.is_accelerometer() && device.is_tablet_pad(),
            Kind::Key => device.has_keys() || !device.is_pointer() && device.has_wheel(),
            Kind::Keyboard => device.is_keyboard(),
            Kind::Switch => device.events.has(SWITCH_EVENT),
        }
    }

    /// The property of the kind.
    #[tactic(auto, unfolding(crate::specs::Kinds::property_of))]
    pub(crate) fn property(self) -> &'static [u8]
        ensures { result.now ≡ property_of self }
    {
        match self {
            Kind::Accelerometer => b"ID_INPUT_ACCELEROMETER",
            Kind::PointingStick => b"ID_INPUT_POINTINGSTICK",
            Kind::Mouse => b"ID_INPUT_MOUSE",
            Kind::Touchpad => b"ID_INPUT_TOUCHPAD",
            Kind::Touchscreen => b"ID_INPUT_TOUCHSCREEN",
            Kind::Joystick => b"ID_INPUT_JOYSTICK",
            Kind::Tablet => b"ID_INPUT_TABLET",
            Kind::TabletPad => b"ID_INPUT_TABLET_PAD",
            Kind::Key => b"ID_INPUT_KEY",
            Kind::Keyboard => b"ID_INPUT_KEYBOARD",
            Kind::Switch => b"ID_INPUT_SWITCH",
        }
    }
}
