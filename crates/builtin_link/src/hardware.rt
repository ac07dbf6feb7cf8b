//! What `Type=` is compared with.
ghost use Rattle.std.specs.Prelude.{◌≡◌, map, option_map};
ghost use Rattle.builtin_link.specs.Hardware.{beside, hardware_name, type_text};

use builtin_devices::{Base, attribute, number_in, some_text, type_of};
use device_core::Event;

/// The kernel's numbers for hardware, with the names of `ARPHRD_` in linux/if_arp.h in small letters.
const HARDWARE_NAMES: [(u64, &[u8]); 31] = [
    (1, b"ether"),
    (24, b"ieee1394"),
    (32, b"infiniband"),
    (256, b"slip"),
    (257, b"cslip"),
    (258, b"slip6"),
    (259, b"cslip6"),
    (280, b"can"),
    (290, b"mctp"),
    (512, b"ppp"),
    (519, b"rawip"),
    (768, b"tunnel"),
    (769, b"tunnel6"),
    (772, b"loopback"),
    (776, b"sit"),
    (778, b"ipgre"),
    (779, b"pimreg"),
    (801, b"ieee80211"),
    (802, b"ieee80211_prism"),
    (803, b"ieee80211_radiotap"),
    (804, b"ieee802154"),
    (805, b"ieee802154_monitor"),
    (820, b"phonet"),
    (821, b"phonet_pipe"),
    (822, b"caif"),
    (823, b"ip6gre"),
    (824, b"netlink"),
    (825, b"6lowpan"),
    (826, b"vsockmon"),
    (65534, b"none"),
    (65535, b"void"),
];

/// The greatest number of hardware.
const MAX_HARDWARE: u64 = u16::MAX as u64;

/// What a table has beside a number.
fn beside<'a>(rows: &[(u64, &'a [u8])], number: u64) -> Option<&'a [u8]>
    ensures { option_map (λ t. t.now) result ≡ beside (map (λ row. (row.0, row.1.now)) rows.now) number }
{
    for row in rows {
        if row.0 == number {
            return Some(row.1);
        }
    }
    None
}

/// The name of the hardware with a number, if it is one that interfaces have today.
#[tactic(auto, unfolding(crate::specs::Hardware::hardware_name))]
fn hardware_name(number: u64) -> Option<&'static [u8]>
    ensures { option_map (λ t. t.now) result ≡ hardware_name number }
{
    beside(&HARDWARE_NAMES, number)
}

/// The type of an interface: what the kernel calls it, or else its hardware.
#[tactic(auto, unfolding(crate::specs::Hardware::type_text))]
pub(crate) fn type_text<'a>(event: &Event<'a>) -> Option<&'a [u8]>
    ensures { option_map (λ t. t.now) result ≡ type_text event.now }
{
    let device = event.device();
    if let Some(text) = some_text(type_of(device)) {
        return Some(text);
    }
    hardware_name(number_in(Base::AsWritten, MAX_HARDWARE, attribute(device, b"type")?)?)
}
