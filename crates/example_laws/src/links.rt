//! Examples of the names that network interfaces get by `.link` files.
ghost use Rattle.std.specs.Prelude.{◌≡◌, ◌∷◌, [], codes};
ghost use Rattle.text_bytes.specs.declared.source_file.FileKind.TheVariants.{Rules};
ghost use Rattle.link_files.specs.Examples.{at};
ghost use Rattle.example_laws.specs.Answered.{answered_by_links, text};

/// An interface is named by the first file all of whose keys hold, with its drop-ins: by the policy that is given last, or, if the
/// kernel's command line says no to policies, by the name that is given.
pub fn an_interface_is_named_by_a_file_with_its_drop_ins()
    ensures policy { answered_by_links
        (at Rules 3 (codes "10-a.link") (codes "[Match]\nOriginalName=eth0\nPath=pci-1\n[Link]\nName=one")
        ∷ at Rules 3 (codes "20-b.link") (codes "[Match]\nOriginalName=eth0\n[Link]\nNamePolicy=path\nName=two") ∷ [])
        (at Rules 0 (codes "20-b.link.d/c.conf") (codes "[Link]\nNamePolicy=slot") ∷ [])
        (codes "IMPORT{builtin}=\"net_setup_link\"")
        (codes "C: add\nP: /d/eth0\nU: net\nE: IFINDEX=2\nE: ID_PATH=pci-0\nE: ID_NET_NAME_PATH=p0\nE: ID_NET_NAME_SLOT=s0\nA: flags=0")
        ≡ text (
        codes "event add /d/eth0" ∷ codes "env ACTION=add" ∷ codes "env DEVPATH=/d/eth0"
        ∷ codes "env ID_NET_LINK_FILE=/usr/lib/systemd/network/20-b.link"
        ∷ codes "env ID_NET_LINK_FILE_DROPINS=/etc/systemd/network/20-b.link.d/c.conf" ∷ codes "env ID_NET_NAME=s0"
        ∷ codes "env ID_NET_NAME_PATH=p0" ∷ codes "env ID_NET_NAME_SLOT=s0" ∷ codes "env ID_PATH=pci-0" ∷ codes "env IFINDEX=2"
        ∷ codes "env SUBSYSTEM=net" ∷ codes "" ∷ []) }
    ensures name { answered_by_links
        (at Rules 3 (codes "b.link") (codes "[Match]\nPath=pci-*\n[Link]\nNamePolicy=path\nName=two") ∷ [])
        []
        (codes "IMPORT{builtin}=\"net_setup_link\"")
        (codes "C: add\nP: /d/eth0\nU: net\nE: IFINDEX=2\nE: ID_PATH=pci-0\nE: ID_NET_NAME_PATH=p0\nA: flags=0\nK: cmdline=net.ifnames=0")
        ≡ text (
        codes "event add /d/eth0" ∷ codes "env ACTION=add" ∷ codes "env DEVPATH=/d/eth0"
        ∷ codes "env ID_NET_LINK_FILE=/usr/lib/systemd/network/b.link" ∷ codes "env ID_NET_NAME=two" ∷ codes "env ID_NET_NAME_PATH=p0"
        ∷ codes "env ID_PATH=pci-0" ∷ codes "env IFINDEX=2" ∷ codes "env SUBSYSTEM=net" ∷ codes "" ∷ []) }
{}
