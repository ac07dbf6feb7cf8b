//! What is true of the names that interfaces get.
//!
//! Each function here is empty: its contract is the law.
ghost use Rattle.std.specs.Prelude.{◌≡◌, ◌⊎◌, ◌∷◌, Bool, List, [], None, Some, codes, drop, false, is_some, not, true, zip};
ghost use Rattle.std.specs.Cmp.{IsTotalOrder};
ghost use Rattle.std.specs.List.{list_all};
ghost use Rattle.std.specs.Ordering.{is_lt};
ghost use Rattle.text_bytes.specs.Text.{Text};
ghost use Rattle.text_tables.specs.Texts.{is_among, same_text};
ghost use Rattle.text_tables.specs.Pairs.{Pair, value_of};
ghost use Rattle.device_core.specs.Values.{EventValue};
ghost use Rattle.eval_commands.specs.Cmdline.{has_word};
ghost use Rattle.builtin_devices.specs.Files.{file_at};
ghost use Rattle.builtin_link.specs.Laws.{release, versions};
ghost use Rattle.builtin_link.specs.Machines.{command_line_holds, is_unclear, version_holds};
ghost use Rattle.builtin_link.specs.Versions.{is_as_value_asks, version_order};
ghost use Rattle.builtin_link.specs.Globs.{fits_some, has_plain, passes};
ghost use Rattle.builtin_link.specs.Hardware.{hardware_name};
ghost use Rattle.link_files.specs.Names.{is_interface_name};
ghost use Rattle.builtin_link.specs.Link.{is_loopback, looking_actions, net_setup_link, properties_by};
ghost use Rattle.builtin_link.specs.Policies.{name_by_policies, name_of, present_name, property_of};
ghost use Rattle.builtin_link.specs.Checks.{checks_of, is_for};
ghost use Rattle.builtin_devices.specs.Devices.{attribute};
ghost use Rattle.link_files.specs.Files.{LinkFileValue};
ghost use Rattle.link_files.specs.declared.settings.Setting.{Setting};

/// An interface that is not new keeps its name.
#[tactic(auto, unfolding(crate::specs::Policies::name_of))]
pub fn only_new_interfaces_are_named()
    ensures { (event : EventValue) (env : List Pair) (settings : List Setting) → same_text event.action (codes "add") ≡ false
        → name_of event env settings ≡ present_name env }
{}

/// The name of an interface is the one that it has, or may be the name of one.
pub fn new_names_may_be_names()
    ensures { (event : EventValue) (env : List Pair) (settings : List Setting) (name : Text) → name_of event env settings ≡ Some name
        → (is_interface_name name ≡ true) ⊎ (present_name env ≡ Some name) }
{}

/// A text that fits a negated word does not pass; without negated words that it fits, it passes a list of negated words alone.
#[tactic(auto, unfolding(crate::specs::Globs::passes))]
pub fn negated_words_deny()
    ensures denied { (words : List Text) (text : Text) → fits_some true words text ≡ true → passes words text ≡ false }
    ensures passed { (words : List Text) (text : Text) → fits_some true words text ≡ false → has_plain words ≡ false → passes words text ≡ true }
{}

/// Rows of the tables of hardware and of policies.
#[tactic(auto, unfolding(crate::specs::Hardware::hardware_name, crate::specs::Policies::property_of))]
pub fn tables_have_their_rows()
    ensures ether { hardware_name 1 ≡ Some (codes "ether") }
    ensures unknown { hardware_name 2 ≡ None }
    ensures slot { property_of (codes "slot") ≡ Some (codes "ID_NET_NAME_SLOT") }
    ensures keep { property_of (codes "keep") ≡ None }
{}

/// The first policy that keeps the name, or that has one, decides: of a card with a name by slot and one by path.
#[tactic(auto, unfolding(crate::specs::Policies::keeps_name, crate::specs::Policies::property_of, link_files::specs::Names::is_interface_name))]
pub fn policies_are_asked_in_turn()
    ensures slot { name_by_policies (Some 1) ((codes "ID_NET_NAME_SLOT", codes "ens3") ∷ (codes "ID_NET_NAME_PATH", codes "enp0s3") ∷ [])
        (Some (codes "eth0")) None (codes "keep" ∷ codes "onboard" ∷ codes "slot" ∷ codes "path" ∷ []) ≡ Some (codes "ens3") }
    ensures path { name_by_policies (Some 1) ((codes "ID_NET_NAME_SLOT", codes "ens3") ∷ (codes "ID_NET_NAME_PATH", codes "enp0s3") ∷ [])
        (Some (codes "eth0")) None (codes "path" ∷ codes "slot" ∷ []) ≡ Some (codes "enp0s3") }
    ensures kept { name_by_policies (Some 4) ((codes "ID_NET_NAME_SLOT", codes "ens3") ∷ [])
        (Some (codes "eth0")) None (codes "keep" ∷ codes "slot" ∷ []) ≡ Some (codes "eth0") }
{}

/// A new interface that is not the machine's own gets the name by the first file that is for it, and the properties that name
/// the file.
pub fn an_interface_is_named_by_the_file_for_it()
    ensures { (event : EventValue) (env : List Pair) (file : LinkFileValue) (files : List LinkFileValue) (flags name : Text)
        → is_among looking_actions event.action ≡ true → is_some (value_of event.device.env (codes "IFINDEX")) ≡ true
        → attribute event.device (codes "flags") ≡ Some flags → is_loopback flags ≡ false
        → is_for (checks_of event env file.settings) ≡ true → name_of event env file.settings ≡ Some name
        → (net_setup_link (file ∷ files) event env).properties ≡ properties_by file name }
{}

/// The kernel's command line has a word if all of it has, or, where the block gives no more, a part of it; that a part lacks a word
/// tells nothing.
pub fn a_part_of_a_command_line_tells_what_it_has()
    ensures whole { (event : EventValue) (word line : Text) → file_at event (codes "cmdline") ≡ Some line
        → command_line_holds event word ≡ Some (has_word word line) }
    ensures part { (event : EventValue) (word line : Text) → file_at event (codes "cmdline") ≡ None → file_at event (codes "cmdline.part") ≡ Some line
        → has_word word line ≡ true → command_line_holds event word ≡ Some true }
    ensures lacking { (event : EventValue) (word line : Text) → file_at event (codes "cmdline") ≡ None → file_at event (codes "cmdline.part") ≡ Some line
        → has_word word line ≡ false → command_line_holds event word ≡ None }
{}

/// A value of KernelVersion that can't be understood is true of no kernel, negated or not; any other one is true if it is not true as
/// it is negated.
pub fn a_version_holds_as_it_is_asked()
    ensures faulty { (event : EventValue) (is_negated : Bool) (value version : Text) → is_unclear value ≡ false
        → value_of event.constants (codes "kernel") ≡ Some version → is_as_value_asks version value ≡ None
        → version_holds event is_negated value ≡ Some false }
    ensures plain { (event : EventValue) (holds : Bool) (value version : Text) → is_unclear value ≡ false
        → value_of event.constants (codes "kernel") ≡ Some version → is_as_value_asks version value ≡ Some holds
        → version_holds event false value ≡ Some holds }
    ensures negated { (event : EventValue) (holds : Bool) (value version : Text) → is_unclear value ≡ false
        → value_of event.constants (codes "kernel") ≡ Some version → is_as_value_asks version value ≡ Some holds
        → version_holds event true value ≡ Some (not holds) }
{}

/// The order of versions is a total one.
pub fn versions_are_in_order()
    ensures { IsTotalOrder version_order }
{}

/// Versions in their order, each before the next: the example of systemd's own source.
pub fn each_version_comes_before_the_next()
    ensures { list_all (λ pair. is_lt (version_order pair.0 pair.1)) (zip versions (drop 1 versions)) ≡ true }
{}

/// What values ask of the kernel 6.18.44-fc-v973, as udevadm answers it.
pub fn kernels_are_compared()
    ensures newer { is_as_value_asks release (codes ">5") ≡ Some true }
    ensures apart { is_as_value_asks release (codes "> 5") ≡ Some true }
    ensures not_older { is_as_value_asks release (codes ">=6.18") ≡ Some true }
    ensures itself { is_as_value_asks release (codes "<=6.18.44-fc-v973") ≡ Some true }
    ensures same { is_as_value_asks release (codes "=6.18.44-fc-v973") ≡ Some true }
    ensures other { is_as_value_asks release (codes "=6.18") ≡ Some false }
    ensures unequal { is_as_value_asks release (codes "<>6.18") ≡ Some true }
    ensures equal { is_as_value_asks release (codes "==6.18.44-fc-v973") ≡ Some true }
    ensures between { is_as_value_asks release (codes ">6.17 <6.19") ≡ Some true }
    ensures older { is_as_value_asks release (codes "<6") ≡ Some false }
    ensures shorter { is_as_value_asks release (codes ">6.18.44-fc") ≡ Some true }
    ensures number { is_as_value_asks release (codes "<6.18.44-fc-v1000") ≡ Some true }
    ensures higher { is_as_value_asks release (codes ">6.18.9") ≡ Some true }
    ensures lower { is_as_value_asks release (codes "<6.18") ≡ Some false }
    ensures second { is_as_value_asks release (codes ">6.17 <6.18") ≡ Some false }
    ensures hundred { is_as_value_asks release (codes ">6.18.100") ≡ Some false }
    ensures alone { is_as_value_asks release (codes ">") ≡ None }
    ensures alone_later { is_as_value_asks release (codes ">5 <") ≡ None }
{}
