//! Conditions on what an input device says about itself, from which its kinds follow.
ghost use Rattle.std.specs.Prelude.{◌≡◌, ◌≤◌};
ghost use Rattle.builtin_input.specs.Signs.{has_multitouch, has_motion, has_mouse_buttons, has_pad_buttons, has_position, has_usual_keys};
ghost use Rattle.builtin_input.specs.Signs.{has_wheel, takes_touch, joystick_buttons, joystick_parts, takes_finger, takes_pen};

use crate::capabilities::Capabilities;
use crate::groups::Group;

/// The event of keys.
pub(crate) const KEY_EVENT: usize = 1;
/// The event of relative axes.
const RELATIVE_EVENT: usize = 2;
/// The event of switches.
pub(crate) const SWITCH_EVENT: usize = 5;

/// The first axis of a position or a motion.
const X: usize = 0;
/// The second axis of a position or a motion.
const Y: usize = 1;
/// The third axis of a position.
pub(crate) const Z: usize = 2;
/// The relative axis of a wheel to the side.
const SIDE_WHEEL: usize = 6;
/// The relative axis of a wheel.
const WHEEL: usize = 8;
/// The absolute axis before the number of the finger.
const BEFORE_SLOT: usize = 0x2E;
/// The absolute axis with the number of the finger that is reported.
const SLOT: usize = 0x2F;
/// The first axis of the position of each finger.
const MULTITOUCH_X: usize = 0x35;
/// The second axis of the position of each finger.
const MULTITOUCH_Y: usize = 0x36;

/// The first button of a pad.
const BUTTON_0: usize = 0x100;
/// The second button of a pad.
const BUTTON_1: usize = 0x101;
/// The last button of a mouse.
const LAST_MOUSE_BUTTON: usize = 0x11F;
/// A pen.
const PEN: usize = 0x140;
/// A finger.
const FINGER: usize = 0x145;
/// A touch.
const TOUCH: usize = 0x14A;
/// The button of a stylus.
const STYLUS: usize = 0x14B;

/// The property of a device whose touches are meant where they are, as on a screen.
const DIRECT: usize = 1;

impl Capabilities {
    /// Whether it has the absolute axes of a position.
    #[tactic(auto, unfolding(crate::specs::Signs::has_position))]
    pub(crate) fn has_position(&self) -> bool
        ensures { result ≡ has_position self.now }
    {
        self.absolute_axes.has(X) && self.absolute_axes.has(Y)
    }

    /// Whether it has the absolute axes of a position for each finger.
    #[tactic(auto, unfolding(crate::specs::Signs::has_multitouch))]
    pub(crate) fn has_multitouch(&self) -> bool
        ensures { result ≡ has_multitouch self.now }
    {
        self.absolute_axes.has(MULTITOUCH_X)
            && self.absolute_axes.has(MULTITOUCH_Y)
            && !(self.absolute_axes.has(SLOT) && self.absolute_axes.has(BEFORE_SLOT))
    }

    /// Whether it has the relative axes of a motion.
    #[tactic(auto, unfolding(crate::specs::Signs::has_motion))]
    pub(crate) fn has_motion(&self) -> bool
        ensures { result ≡ has_motion self.now }
    {
        self.events.has(RELATIVE_EVENT) && self.relative_axes.has(X) && self.relative_axes.has(Y)
    }

    /// Whether it has a wheel.
    #[tactic(auto, unfolding(crate::specs::Signs::has_wheel))]
    pub(crate) fn has_wheel(&self) -> bool
        ensures { result ≡ has_wheel self.now }
    {
        self.events.has(RELATIVE_EVENT)
            && (self.relative_axes.has(WHEEL) || self.relative_axes.has(SIDE_WHEEL))
    }

    /// Whether it takes a pen.
    #[tactic(auto, unfolding(crate::specs::Signs::takes_pen))]
    pub(crate) fn takes_pen(&self) -> bool
        ensures { result ≡ takes_pen self.now }
    {
        self.keys.has(PEN) || self.keys.has(STYLUS)
    }

    /// Whether it takes a finger and no pen, and is not a screen.
    #[tactic(auto, unfolding(crate::specs::Signs::takes_finger))]
    pub(crate) fn takes_finger(&self) -> bool
        ensures { result ≡ takes_finger self.now }
    {
        !self.takes_pen() && self.keys.has(FINGER) && !self.properties.has(DIRECT)
    }

    /// Whether it is a screen, or reports touches.
    #[tactic(auto, unfolding(crate::specs::Signs::takes_touch))]
    pub(crate) fn takes_touch(&self) -> bool
        ensures { result ≡ takes_touch self.now }
    {
        self.keys.has(TOUCH) || self.properties.has(DIRECT)
    }

    /// Whether it has buttons of a mouse.
    #[tactic(auto, unfolding(crate::specs::Signs::has_mouse_buttons))]
    pub(crate) fn has_mouse_buttons(&self) -> bool
        ensures { result ≡ has_mouse_buttons self.now }
    {
        self.keys.count(Group::MouseButton) >= 1
    }

    /// Whether it has buttons of a pad, and takes no pen.
    #[tactic(auto, unfolding(crate::specs::Signs::has_pad_buttons))]
    pub(crate) fn has_pad_buttons(&self) -> bool
        ensures { result ≡ has_pad_buttons self.now }
    {
        self.keys.has(BUTTON_0) && self.keys.has(BUTTON_1) && !self.keys.has(PEN)
    }

    /// How many buttons of joysticks it has.
    #[tactic(auto, unfolding(crate::specs::Signs::joystick_buttons))]
    fn joystick_buttons(&self) -> usize
        ensures value { result ≡ joystick_buttons self.now }
        ensures few { result ≤ 768 }
    {
        if self.keys.has(LAST_MOUSE_BUTTON) {
            0
        } else {
            self.keys.count(Group::JoystickButton)
        }
    }

    /// How many buttons and axes of joysticks it has.
    #[tactic(auto, unfolding(crate::specs::Signs::joystick_parts))]
    pub(crate) fn joystick_parts(&self) -> usize
        ensures { result ≡ joystick_parts self.now }
    {
        self.joystick_buttons() + self.absolute_axes.count(Group::JoystickAxis)
    }

    /// Whether it has at least four of the keys that keyboards have.
    #[tactic(auto, unfolding(crate::specs::Signs::has_usual_keys))]
    pub(crate) fn has_usual_keys(&self) -> bool
        ensures { result ≡ has_usual_keys self.now }
    {
        self.events.has(KEY_EVENT) && self.keys.count(Group::UsualKey) >= 4
    }
}
