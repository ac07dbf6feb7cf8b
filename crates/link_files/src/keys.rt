//! The keys of `.link` files, with the form that the value of each has.
//!
//! Taken on 29 November 2026 from systemd.link(5) of systemd 257; and on 30 November 2026 from that of systemd 262 the keys
//! of `[EnergyEfficientEthernet]` and `PartialGenericSegmentationOffload`, which udev has from 258 on. Each table is data
//! that contracts cite as it stands.

/// The form of a value.
#[derive(Clone, Copy, PartialEq, Eq)]
pub(crate) enum Form {
    /// Any text.
    Any,
    /// Names of interfaces, or patterns that could be such names.
    Names,
    /// Patterns.
    Globs,
    /// Names of properties, each with `=` and a value.
    Properties,
    /// The name of an interface.
    Name,
    /// Yes or no.
    Boolean,
    /// Policies for the name.
    NamePolicies,
    /// Policies for further names.
    AlternativePolicies,
    /// The policy for the address.
    AddressPolicy,
    /// Whether both sides send at a time.
    Duplex,
    /// The packets that wake a machine.
    Wake,
}

/// A key, and the form of its value.
pub(crate) type Key = (&'static [u8], Form);

/// The keys of `[Match]`.
pub(crate) const MATCH_KEYS: [Key; 15] = [
    (b"MACAddress", Form::Any),
    (b"PermanentMACAddress", Form::Any),
    (b"Path", Form::Globs),
    (b"Driver", Form::Globs),
    (b"Type", Form::Globs),
    (b"Kind", Form::Globs),
    (b"Property", Form::Properties),
    (b"OriginalName", Form::Names),
    (b"Host", Form::Any),
    (b"Virtualization", Form::Any),
    (b"KernelCommandLine", Form::Any),
    (b"KernelVersion", Form::Any),
    (b"Credential", Form::Any),
    (b"Architecture", Form::Any),
    (b"Firmware", Form::Any),
];

/// The keys of `[Link]`.
pub(crate) const LINK_KEYS: [Key; 74] = [
    (b"Description", Form::Any),
    (b"Property", Form::Any),
    (b"ImportProperty", Form::Any),
    (b"UnsetProperty", Form::Any),
    (b"Alias", Form::Any),
    (b"MACAddressPolicy", Form::AddressPolicy),
    (b"MACAddress", Form::Any),
    (b"NamePolicy", Form::NamePolicies),
    (b"Name", Form::Name),
    (b"AlternativeNamesPolicy", Form::AlternativePolicies),
    (b"AlternativeName", Form::Any),
    (b"TransmitQueues", Form::Any),
    (b"ReceiveQueues", Form::Any),
    (b"TransmitQueueLength", Form::Any),
    (b"MTUBytes", Form::Any),
    (b"BitsPerSecond", Form::Any),
    (b"Duplex", Form::Duplex),
    (b"AutoNegotiation", Form::Boolean),
    (b"Port", Form::Any),
    (b"Advertise", Form::Any),
    (b"ReceiveChecksumOffload", Form::Boolean),
    (b"TransmitChecksumOffload", Form::Boolean),
    (b"TCPSegmentationOffload", Form::Boolean),
    (b"TCP6SegmentationOffload", Form::Boolean),
    (b"GenericSegmentationOffload", Form::Boolean),
    (b"PartialGenericSegmentationOffload", Form::Boolean),
    (b"GenericReceiveOffload", Form::Boolean),
    (b"GenericReceiveOffloadHardware", Form::Boolean),
    (b"LargeReceiveOffload", Form::Boolean),
    (b"ReceivePacketSteeringCPUMask", Form::Any),
    (b"ReceiveVLANCTAGHardwareAcceleration", Form::Boolean),
    (b"TransmitVLANCTAGHardwareAcceleration", Form::Boolean),
    (b"ReceiveVLANCTAGFilter", Form::Boolean),
    (b"TransmitVLANSTAGHardwareAcceleration", Form::Boolean),
    (b"NTupleFilter", Form::Boolean),
    (b"RxChannels", Form::Any),
    (b"TxChannels", Form::Any),
    (b"OtherChannels", Form::Any),
    (b"CombinedChannels", Form::Any),
    (b"RxBufferSize", Form::Any),
    (b"RxMiniBufferSize", Form::Any),
    (b"RxJumboBufferSize", Form::Any),
    (b"TxBufferSize", Form::Any),
    (b"RxFlowControl", Form::Boolean),
    (b"TxFlowControl", Form::Boolean),
    (b"AutoNegotiationFlowControl", Form::Boolean),
    (b"GenericSegmentOffloadMaxBytes", Form::Any),
    (b"GenericSegmentOffloadMaxSegments", Form::Any),
    (b"UseAdaptiveRxCoalesce", Form::Boolean),
    (b"UseAdaptiveTxCoalesce", Form::Boolean),
    (b"RxCoalesceSec", Form::Any),
    (b"RxCoalesceIrqSec", Form::Any),
    (b"RxCoalesceLowSec", Form::Any),
    (b"RxCoalesceHighSec", Form::Any),
    (b"TxCoalesceSec", Form::Any),
    (b"TxCoalesceIrqSec", Form::Any),
    (b"TxCoalesceLowSec", Form::Any),
    (b"TxCoalesceHighSec", Form::Any),
    (b"RxMaxCoalescedFrames", Form::Any),
    (b"RxMaxCoalescedIrqFrames", Form::Any),
    (b"RxMaxCoalescedLowFrames", Form::Any),
    (b"RxMaxCoalescedHighFrames", Form::Any),
    (b"TxMaxCoalescedFrames", Form::Any),
    (b"TxMaxCoalescedIrqFrames", Form::Any),
    (b"TxMaxCoalescedLowFrames", Form::Any),
    (b"TxMaxCoalescedHighFrames", Form::Any),
    (b"CoalescePacketRateLow", Form::Any),
    (b"CoalescePacketRateHigh", Form::Any),
    (b"CoalescePacketRateSampleIntervalSec", Form::Any),
    (b"StatisticsBlockCoalesceSec", Form::Any),
    (b"MDI", Form::Any),
    (b"SR-IOVVirtualFunctions", Form::Any),
    (b"WakeOnLan", Form::Wake),
    (b"WakeOnLanPassword", Form::Any),
];

/// The keys of `[SR-IOV]`.
pub(crate) const FUNCTION_KEYS: [Key; 9] = [
    (b"VirtualFunction", Form::Any),
    (b"VLANId", Form::Any),
    (b"QualityOfService", Form::Any),
    (b"VLANProtocol", Form::Any),
    (b"MACSpoofCheck", Form::Boolean),
    (b"QueryReceiveSideScaling", Form::Boolean),
    (b"Trust", Form::Boolean),
    (b"LinkState", Form::Any),
    (b"MACAddress", Form::Any),
];

/// The keys of `[EnergyEfficientEthernet]`.
pub(crate) const ENERGY_KEYS: [Key; 4] = [
    (b"Enable", Form::Boolean),
    (b"TxLowPowerIdle", Form::Boolean),
    (b"TxLowPowerIdleSec", Form::Any),
    (b"LinkMode", Form::Any),
];

/// The policies for the name.
pub(crate) const NAME_POLICIES: [&[u8]; 7] = [
    b"kernel",
    b"database",
    b"onboard",
    b"slot",
    b"path",
    b"mac",
    b"keep",
];

/// The policies for further names.
pub(crate) const ALTERNATIVE_POLICIES: [&[u8]; 5] = [
    b"database",
    b"onboard",
    b"slot",
    b"path",
    b"mac",
];

/// The policies for the address.
pub(crate) const ADDRESS_POLICIES: [&[u8]; 3] = [b"persistent", b"random", b"none"];

/// Whether both sides send at a time.
pub(crate) const DUPLEX: [&[u8]; 2] = [b"half", b"full"];

/// The packets that wake a machine.
pub(crate) const WAKES: [&[u8]; 8] = [
    b"off",
    b"phy",
    b"unicast",
    b"multicast",
    b"broadcast",
    b"arp",
    b"magic",
    b"secureon",
];
